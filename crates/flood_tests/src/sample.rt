// A keep-out from edge to edge on one layer is passed on the other, and one on each layer bars the way.
use costs::{ByMoney, ByVias, CostKind, Money, PriceList, ViasMoney};
use flood::{Ground, flood};
use geometry::{Class, Mark, Measures, Piece, Point, Rect, Size, Span};
use std::alloc::Global;
use std::process::Abort;
use std::test::Fail;

const FIRST: Point = Point {
    layer: 1,
    x: 10,
    y: 30,
};

const SECOND: Point = Point {
    layer: 1,
    x: 90,
    y: 30,
};

const MEASURES: Measures = Measures {
    half: 2,
    space: 3,
    pad: 3,
};

const SIZE: Size = Size {
    width: 100,
    height: 60,
    layers: 2,
};

/// A keep-out from edge to edge on a layer.
fn bar(layer: u8) -> Piece {
    Piece {
        layer,
        rect: Rect {
            x: Span { low: 40, high: 50 },
            y: Span { low: 0, high: 60 },
        },
        net: 0,
        space: 0,
        job: 1,
        mark: Mark::Placed,
    }
}

fn prices() -> Result<PriceList, Fail> {
    let mut prices = PriceList::new();
    prices.set(1, 1, 3, 10)?;
    prices.set(2, 3, 1, 0)?;
    Ok(prices)
}

/// The amount for which the second terminal is reached on a panel of 100 by 60 units with two layers.
fn reached<K: CostKind>(
    rt: &impl Abort,
    heap: Global,
    kind: K,
    pieces: &[Piece],
) -> Result<Option<K::Amount>, Fail> {
    let class = Class::new(MEASURES).expect(rt, "the class");
    let ground = Ground::new(SIZE, class, 7).expect(rt, "the ground");
    Ok(flood(heap, kind, &ground, pieces, &FIRST, &SECOND)?)
}

#[test]
fn a_bar_is_passed_on_the_other_layer(rt: HostRuntime) -> Result<(), Fail> {
    let prices = prices()?;
    let pieces = [bar(1)];
    let money = reached(&rt, rt.alloc(), ByMoney { prices }, &pieces)?;
    assert_eq!(rt; money, Some(Money { units: 144 }));
    let pair = reached(&rt, rt.alloc(), ByVias { prices }, &pieces)?;
    let least = ViasMoney {
        vias: 2,
        units: 124,
    };
    assert_eq!(rt; pair, Some(least));
    Ok(())
}

#[test]
fn nothing_in_the_way_is_straight(rt: HostRuntime) -> Result<(), Fail> {
    let prices = prices()?;
    let money = reached(&rt, rt.alloc(), ByMoney { prices }, &[])?;
    assert_eq!(rt; money, Some(Money { units: 80 }));
    Ok(())
}

#[test]
fn bars_on_both_layers_leave_no_path(rt: HostRuntime) -> Result<(), Fail> {
    let prices = prices()?;
    let pieces = [bar(1), bar(2)];
    let money = reached(&rt, rt.alloc(), ByMoney { prices }, &pieces)?;
    assert_eq!(rt; money, None);
    Ok(())
}
