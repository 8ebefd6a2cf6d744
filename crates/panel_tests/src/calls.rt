// Place and lift at the ends of 32 bits, without places, and until the job numbers are used up.
use costs::{ByMoney, ByVias, PriceList};
use geometry::{Mark, Piece, Rect, Size, Span};
use panel::{Call, Done, Placement, Refusal, Sheet, SheetRefusal, run_calls};
use registers::{PlainRegister, Register};
use std::process::Abort;
use std::test::Fail;

/// A laid piece of job 7 on layer 1.
const LAID: Piece = Piece {
    layer: 1,
    rect: Rect {
        x: Span { low: 0, high: 50 },
        y: Span { low: 0, high: 50 },
    },
    net: 7,
    space: 3,
    job: 7,
    mark: Mark::Laid,
};

/// A placement that is accepted on a panel of 100 by 60 units with two layers.
const GOOD: Placement = Placement {
    layer: 1,
    x1: 10,
    y1: 10,
    x2: 20,
    y2: 20,
    net: 8,
    space: 0,
};

/// Arguments of place, each from the layer to the space, and the refusal.
const REFUSED: [([u32; 7], Refusal); 14] = [
    ([u32::MAX, 10, 10, 20, 20, 8, 0], Refusal::LayerRange),
    ([257, 10, 10, 20, 20, 8, 0], Refusal::LayerRange),
    ([1, 10, 10, 20, 20, u32::MAX, 0], Refusal::NetRange),
    ([1, 10, 10, 20, 20, 264, 0], Refusal::NetRange),
    ([1, u32::MAX, 10, 20, 20, 8, 0], Refusal::OffPanel),
    ([1, 10, u32::MAX, 20, 20, 8, 0], Refusal::OffPanel),
    ([1, 10, 10, u32::MAX, 20, 8, 0], Refusal::OffPanel),
    ([1, 10, 10, 20, u32::MAX, 8, 0], Refusal::OffPanel),
    ([1, 10, 10, 20, 20, 8, u32::MAX], Refusal::OffPanel),
    ([1, 10, 10, 20, 20, 8, 65_536], Refusal::OffPanel),
    ([1, 10, 10, 65_556, 20, 8, 0], Refusal::OffPanel),
    (
        [1, 2_147_483_648, 10, 2_147_483_649, 20, 8, 0],
        Refusal::OffPanel,
    ),
    (
        [
            0,
            u32::MAX,
            u32::MAX,
            u32::MAX,
            u32::MAX,
            u32::MAX,
            u32::MAX,
        ],
        Refusal::LayerRange,
    ),
    (
        [
            2,
            u32::MAX,
            u32::MAX,
            u32::MAX,
            u32::MAX,
            u32::MAX,
            u32::MAX,
        ],
        Refusal::NetRange,
    ),
];

fn placement(a: [u32; 7]) -> Placement {
    let [layer, x1, y1, x2, y2, net, space] = a;
    Placement {
        layer,
        x1,
        y1,
        x2,
        y2,
        net,
        space,
    }
}

/// A sheet of 100 by 60 units with two layers.
fn sheet(rt: &impl Abort) -> Result<Sheet, Fail> {
    let mut sheet = Sheet::new();
    for (width, set) in [
        (100, Ok(())),
        (0, Err(SheetRefusal::Size)),
        (u32::MAX, Err(SheetRefusal::Size)),
    ] {
        let size = Size {
            width,
            height: 60,
            layers: 2,
        };
        assert_eq!(rt; sheet.set_size(size), set);
    }
    Ok(sheet)
}

#[test]
fn wide_arguments(rt: HostRuntime) -> Result<(), Fail> {
    let prices = PriceList::new();
    let mut slots = [LAID; 3];
    let mut panel = sheet(&rt)?.open(ByMoney { prices }, PlainRegister::new(&mut slots));
    assert_eq!(rt; panel.place(&GOOD), Ok(1));
    for (a, refusal) in &REFUSED {
        assert_eq!(rt; panel.place(&placement(*a)), Err(*refusal));
    }
    for job in [0, 2, 65_535, 65_536, 65_537, u32::MAX] {
        assert_eq!(rt; panel.lift(job), Err(Refusal::NoSuchJob));
    }
    assert_eq!(rt; panel.place(&GOOD), Ok(2));
    assert_eq!(rt; panel.lift(1), Ok(1));
    assert_eq!(rt; panel.lift(1), Err(Refusal::NoSuchJob));
    Ok(())
}

#[test]
fn calls_in_a_row(rt: HostRuntime) -> Result<(), Fail> {
    let prices = PriceList::new();
    let mut slots = [LAID; 1];
    let register = PlainRegister::new(&mut slots);
    let calls = [
        Call::Place(GOOD),
        Call::Place(GOOD),
        Call::Lift(1),
        Call::Lift(1),
    ];
    let answers = run_calls(
        rt.alloc(),
        sheet(&rt)?,
        ByMoney { prices },
        register,
        &calls,
    )?;
    let expected = [
        Ok(Done::Placed(1)),
        Err(Refusal::TooFewPlaces(1)),
        Ok(Done::Lifted(1)),
        Err(Refusal::NoSuchJob),
    ];
    assert_eq!(rt; answers.as_slice(), expected.as_slice());
    Ok(())
}

#[test]
fn no_places(rt: HostRuntime) -> Result<(), Fail> {
    let prices = PriceList::new();
    let mut slots = [LAID; 0];
    let mut panel = sheet(&rt)?.open(ByVias { prices }, PlainRegister::new(&mut slots));
    assert_eq!(rt; panel.place(&GOOD), Err(Refusal::TooFewPlaces(1)));
    let off = placement([1, 10, 10, 10, 20, 8, 0]);
    assert_eq!(rt; panel.place(&off), Err(Refusal::OffPanel));
    assert_eq!(rt; panel.lift(1), Err(Refusal::NoSuchJob));
    Ok(())
}

#[test]
fn opening_empties_the_register(rt: HostRuntime) -> Result<(), Fail> {
    let prices = PriceList::new();
    let mut slots = [LAID; 2];
    let mut register = PlainRegister::new(&mut slots);
    register.add(LAID)?;
    register.add(LAID)?;
    let mut panel = sheet(&rt)?.open(ByMoney { prices }, register);
    assert_eq!(rt; panel.lift(7), Err(Refusal::NoSuchJob));
    assert_eq!(rt; panel.place(&GOOD), Ok(1));
    assert_eq!(rt; panel.place(&GOOD), Ok(2));
    assert_eq!(rt; panel.place(&GOOD), Err(Refusal::TooFewPlaces(1)));
    Ok(())
}

/// With one place: 7 before 15, and 2, 4 and 5 before both.
#[test]
fn job_numbers_used_up(rt: HostRuntime) -> Result<(), Fail> {
    let prices = PriceList::new();
    let mut slots = [LAID; 1];
    let mut panel = sheet(&rt)?.open(ByVias { prices }, PlainRegister::new(&mut slots));
    for job in 1..65_535 {
        assert_eq!(rt; panel.place(&GOOD), Ok(job));
        assert_eq!(rt; panel.lift(job as u32), Ok(1));
    }
    assert_eq!(rt; panel.place(&GOOD), Ok(65_535));
    assert_eq!(rt; panel.place(&GOOD), Err(Refusal::TooFewPlaces(1)));
    assert_eq!(rt; panel.lift(65_535), Ok(1));
    assert_eq!(rt; panel.place(&GOOD), Err(Refusal::JobsUsedUp));
    for (a, refusal) in &REFUSED {
        assert_eq!(rt; panel.place(&placement(*a)), Err(*refusal));
    }
    assert_eq!(rt; panel.lift(65_535), Err(Refusal::NoSuchJob));
    assert_eq!(rt; panel.place(&GOOD), Err(Refusal::JobsUsedUp));
    Ok(())
}
