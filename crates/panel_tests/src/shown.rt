// What is shown of each refusal.
use panel::{Level, Refusal, SheetRefusal, Shown};

/// A refusal of a call, its number, and what is returned.
const OF_CALLS: [(Refusal, u32, u64); 18] = [
    (Refusal::LayerRange, 2, 0),
    (Refusal::ClassUnset, 3, 0),
    (Refusal::NetRange, 4, 0),
    (Refusal::OffPanel, 5, 0),
    (Refusal::SamePoint, 6, 0),
    (Refusal::TooFewPlaces(1), 7, 1),
    (Refusal::TooFewPlaces(4_294_967_295), 7, 4_294_967_295),
    (Refusal::InTheWay(1), 8, 1),
    (Refusal::InTheWay(65_535), 8, 65_535),
    (Refusal::NoSuchJob, 9, 0),
    (Refusal::ShortCoordinates(1026), 10, 1026),
    (Refusal::TooManyLines, 11, 0),
    (Refusal::ShortNodes(400), 12, 400),
    (Refusal::ShortNodes(8_388_608), 12, 8_388_608),
    (Refusal::NoPath, 13, 0),
    (Refusal::ShortPath(6), 14, 6),
    (Refusal::ShortPath(65), 14, 65),
    (Refusal::JobsUsedUp, 15, 0),
];

#[test]
fn refusals_of_calls(rt: HostRuntime) {
    for (refusal, number, returned) in &OF_CALLS {
        let shown = Shown::new(Level::Panel, *number, *returned);
        assert_eq!(rt; refusal.shown(), shown);
    }
}

#[test]
fn refusals_of_settings(rt: HostRuntime) {
    assert_eq!(rt; SheetRefusal::Size.shown(), Shown::new(Level::Sheet, 1, 0));
    assert_eq!(rt; SheetRefusal::Class.shown(), Shown::new(Level::Sheet, 3, 0));
}
