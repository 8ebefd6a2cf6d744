// Boxes between points, along both axes, and the points of a panel.
use geometry::{Axis, Point, Rect, Size, Span};

const LOW: Point = Point {
    layer: 1,
    x: 10,
    y: 30,
};

const HIGH: Point = Point {
    layer: 2,
    x: 90,
    y: 30,
};

#[test]
fn boxes(rt: HostRuntime) {
    let wide = Rect {
        x: Span { low: 10, high: 90 },
        y: Span { low: 30, high: 30 },
    };
    assert_eq!(rt; Rect::between(&LOW, &HIGH), wide);
    assert_eq!(rt; Rect::between(&HIGH, &LOW), wide);
    assert_eq!(rt; wide.along(Axis::X), Span::between(10, 90));
    assert_eq!(rt; wide.along(Axis::Y), Span::between(30, 30));
    assert_eq!(rt; (HIGH.along(Axis::X), HIGH.along(Axis::Y)), (90, 30));
    // the greatest border
    let far = Span {
        low: 2147483647,
        high: 2147483647,
    };
    assert_eq!(rt; Span::between(4294967295, 2147483647), far);
}

/// A point's layer, x and y, and whether a panel of 100 by 60 units with 2 layers has it.
const POINTS: [(u32, u32, u32, bool); 6] = [
    (1, 0, 0, true),
    (2, 100, 60, true),
    (0, 10, 10, false),
    (3, 10, 10, false),
    (1, 101, 60, false),
    (1, 100, 61, false),
];

#[test]
fn points(rt: HostRuntime) {
    let size = Size {
        width: 100,
        height: 60,
        layers: 2,
    };
    for (layer, x, y, had) in &POINTS {
        let p = Point {
            layer: *layer,
            x: *x,
            y: *y,
        };
        assert_eq!(rt; size.has(&p), *had);
    }
}
