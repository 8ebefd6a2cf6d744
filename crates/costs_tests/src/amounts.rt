// Sums, comparisons and multiples of both sorts of amount, and a path priced by both kinds.
use costs::amount::Amount;
use costs::doubling::times;
use costs::kind::CostKind;
use costs::money::{ByMoney, Money};
use costs::prices::PriceList;
use costs::vias::{ByVias, ViasMoney};
use geometry::Axis;
use std::test::Fail;

/// Factors, units and the product.
const MULTIPLES: [(u32, u64, u64); 8] = [
    (0, 7, 0),
    (1, 7, 7),
    (2, 7, 14),
    (3, 7, 21),
    (6, 7, 42),
    (100, 0, 0),
    (60_000, 65_535, 3_932_100_000),
    (u32::MAX, 1_000_000, 4_294_967_295_000_000),
];

/// Vias and units of two amounts, and whether the first is not greater.
const COMPARISONS: [(u64, u64, u64, u64, bool); 7] = [
    (0, 290, 2, 124, true),
    (2, 124, 0, 290, false),
    (2, 123, 2, 124, true),
    (2, 124, 2, 124, true),
    (2, 125, 2, 124, false),
    (0, u64::MAX, 1, 0, true),
    (u64::MAX, 0, u64::MAX - 1, u64::MAX, false),
];

#[test]
fn multiples_are_products(rt: HostRuntime) {
    for (k, units, product) in &MULTIPLES {
        let money = times(Money { units: *units }, *k);
        assert_eq!(rt; money, Money { units: *product });
        let once = ViasMoney {
            vias: 1,
            units: *units,
        };
        let multiple = ViasMoney {
            vias: *k as u64,
            units: *product,
        };
        assert_eq!(rt; times(once, *k), multiple);
    }
}

#[test]
fn vias_are_compared_first(rt: HostRuntime) {
    for (vias, units, other_vias, other_units, answer) in &COMPARISONS {
        let a = ViasMoney {
            vias: *vias,
            units: *units,
        };
        let b = ViasMoney {
            vias: *other_vias,
            units: *other_units,
        };
        assert_eq!(rt; a.at_most(&b), *answer);
    }
}

#[test]
fn money_is_compared_and_added(rt: HostRuntime) {
    let five = Money { units: 5 };
    let six = Money { units: 6 };
    assert!(rt; five.at_most(&six));
    assert!(rt; five.at_most(&five));
    assert!(rt; !six.at_most(&five));
    assert_eq!(rt; five.sum(six), Money { units: 11 });
    assert_eq!(rt; five.sum(Money::zero()), five);
}

/// 24 units on layer 1, 22 on layer 2 and 34 on layer 1, all along x, with a via after the first and the second.
fn path<K: CostKind>(kind: K) -> K::Amount {
    let first = times(kind.step(Axis::X, 1), 24).sum(kind.via(1));
    let second = times(kind.step(Axis::X, 2), 22).sum(kind.via(1));
    first.sum(second).sum(times(kind.step(Axis::X, 1), 34))
}

#[test]
fn a_path_has_a_price_in_both_kinds(rt: HostRuntime) -> Result<(), Fail> {
    let mut prices = PriceList::new();
    prices.set(1, 1, 3, 10)?;
    prices.set(2, 3, 1, 0)?;
    assert_eq!(rt; path(ByMoney { prices }), Money { units: 144 });
    let pair = ViasMoney {
        vias: 2,
        units: 124,
    };
    assert_eq!(rt; path(ByVias { prices }), pair);
    assert_eq!(rt; ByMoney { prices }.step(Axis::Y, 2), Money { units: 1 });
    assert_eq!(rt; ByVias { prices }.step(Axis::Y, 1).units, 3);
    Ok(())
}
