// Setting price rows at the ends of their ranges and one past them.
use costs::prices::{PriceList, RowRefusal};

/// Layer, u, v and t of a row to set, and the answer.
const SETTINGS: [(u32, u32, u32, u32, Result<(), RowRefusal>); 11] = [
    (0, 1, 2, 3, Err(RowRefusal::Layer)),
    (1, 1, 2, 3, Ok(())),
    (8, 1, 2, 3, Ok(())),
    (9, 1, 2, 3, Err(RowRefusal::Layer)),
    (1, 65_535, 65_535, 1_000_000, Ok(())),
    (1, 65_536, 2, 3, Err(RowRefusal::Price)),
    (1, 1, 65_536, 3, Err(RowRefusal::Price)),
    (1, 1, 2, 1_000_001, Err(RowRefusal::Price)),
    (8, u32::MAX, u32::MAX, u32::MAX, Err(RowRefusal::Price)),
    (9, 65_536, 65_536, 1_000_001, Err(RowRefusal::Layer)),
    (u32::MAX, 0, 0, 0, Err(RowRefusal::Layer)),
];

/// The prices of a layer as three numbers.
fn prices(list: &PriceList, layer: u32) -> Option<(u32, u32, u32)> {
    list.row(layer)
        .map(|row| (row.u as u32, row.v as u32, row.t))
}

#[test]
fn unset_rows_hold_zeros(rt: HostRuntime) {
    let list = PriceList::new();
    for layer in 1..9 {
        assert_eq!(rt; prices(&list, layer), Some((0, 0, 0)));
    }
    assert_eq!(rt; prices(&list, 0), None);
    assert_eq!(rt; prices(&list, 9), None);
}

#[test]
fn rows_are_set_within_their_ranges_and_else_left(rt: HostRuntime) {
    let mut set = PriceList::new();
    assert_eq!(rt; set.set(1, 11, 12, 13), Ok(()));
    assert_eq!(rt; set.set(2, 21, 22, 23), Ok(()));
    assert_eq!(rt; set.set(8, 81, 82, 83), Ok(()));
    for (layer, u, v, t, answer) in &SETTINGS {
        let mut list = set;
        assert_eq!(rt; list.set(*layer, *u, *v, *t), *answer);
        if answer.is_ok() {
            assert_eq!(rt; prices(&list, *layer), Some((*u, *v, *t)));
        } else {
            assert_eq!(rt; list, set);
        }
        assert_eq!(rt; prices(&list, 2), Some((21, 22, 23)));
    }
}
