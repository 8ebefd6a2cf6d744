// Where zones end, and what they meet.
use geometry::{Rect, Span, apart, zone_axis, zone_meets};

#[derive(Debug, PartialEq, Eq)]
struct AxisZone {
    span: Span,
    out: u32,
    low: i64,
    high: i64,
}

const AXES: [AxisZone; 9] = [
    AxisZone {
        span: Span { low: 40, high: 50 },
        out: 5,
        low: 35,
        high: 55,
    },
    AxisZone {
        span: Span { low: 40, high: 50 },
        out: 6,
        low: 34,
        high: 56,
    },
    AxisZone {
        span: Span { low: 0, high: 0 },
        out: 0,
        low: 0,
        high: 0,
    },
    AxisZone {
        span: Span { low: -9, high: -4 },
        out: 0,
        low: -9,
        high: -4,
    },
    AxisZone {
        span: Span { low: -9, high: -4 },
        out: 7,
        low: -16,
        high: 3,
    },
    // the widest wire, and the widest pad
    AxisZone {
        span: Span {
            low: 0,
            high: 60000,
        },
        out: 1500,
        low: -1500,
        high: 61500,
    },
    AxisZone {
        span: Span {
            low: 0,
            high: 60000,
        },
        out: 2000,
        low: -2000,
        high: 62000,
    },
    AxisZone {
        span: Span {
            low: -2147483648,
            high: 2147483647,
        },
        out: 2000,
        low: -2147485648,
        high: 2147485647,
    },
    AxisZone {
        span: Span {
            low: -2147483648,
            high: 2147483647,
        },
        out: 4294967295,
        low: -6442450943,
        high: 6442450942,
    },
];

#[test]
fn axes(rt: HostRuntime) {
    for row in &AXES {
        assert_eq!(rt; zone_axis(&row.span, row.out), (row.low, row.high));
    }
}

/// A rectangle and a box, by x1, y1, x2, y2, and whether the rectangle moved out meets the box.
#[derive(Debug, PartialEq, Eq)]
struct Met {
    rect: [i32; 4],
    out: u32,
    area: [i32; 4],
    met: bool,
}

const MET: [Met; 18] = [
    // a point on each border is outside the zone, one unit further in it is inside
    Met {
        rect: [40, 0, 50, 60],
        out: 6,
        area: [34, 30, 34, 30],
        met: false,
    },
    Met {
        rect: [40, 0, 50, 60],
        out: 6,
        area: [35, 30, 35, 30],
        met: true,
    },
    Met {
        rect: [40, 0, 50, 60],
        out: 6,
        area: [56, 30, 56, 30],
        met: false,
    },
    Met {
        rect: [40, 0, 50, 60],
        out: 6,
        area: [55, 30, 55, 30],
        met: true,
    },
    Met {
        rect: [40, 0, 50, 60],
        out: 6,
        area: [45, -6, 45, -6],
        met: false,
    },
    Met {
        rect: [40, 0, 50, 60],
        out: 6,
        area: [45, -5, 45, -5],
        met: true,
    },
    Met {
        rect: [40, 0, 50, 60],
        out: 6,
        area: [45, 66, 45, 66],
        met: false,
    },
    Met {
        rect: [40, 0, 50, 60],
        out: 6,
        area: [45, 65, 45, 65],
        met: true,
    },
    // steps
    Met {
        rect: [40, 0, 50, 60],
        out: 5,
        area: [34, 30, 35, 30],
        met: false,
    },
    Met {
        rect: [40, 0, 50, 60],
        out: 5,
        area: [35, 30, 36, 30],
        met: true,
    },
    // a box that reaches over the whole zone, though both its ends lie outside
    Met {
        rect: [40, 0, 50, 60],
        out: 5,
        area: [35, 30, 55, 30],
        met: true,
    },
    // rectangles that touch, at out 0
    Met {
        rect: [0, 0, 10, 10],
        out: 0,
        area: [10, 0, 20, 10],
        met: false,
    },
    Met {
        rect: [0, 0, 10, 10],
        out: 0,
        area: [9, 0, 20, 10],
        met: true,
    },
    Met {
        rect: [0, 0, 10, 10],
        out: 0,
        area: [10, 10, 20, 20],
        met: false,
    },
    // below 0, and at the ends of 32 bits
    Met {
        rect: [-20, -20, -10, -10],
        out: 3,
        area: [-7, -20, 0, -10],
        met: false,
    },
    Met {
        rect: [-20, -20, -10, -10],
        out: 4,
        area: [-7, -20, 0, -10],
        met: true,
    },
    Met {
        rect: [2147483600, 0, 2147483647, 9],
        out: 2000,
        area: [-2147483648, 0, -2147483600, 9],
        met: false,
    },
    Met {
        rect: [-2147483648, -2147483648, 2147483647, 2147483647],
        out: 4294967295,
        area: [0, 0, 0, 0],
        met: true,
    },
];

fn rect(corners: &[i32; 4]) -> Rect {
    let [x1, y1, x2, y2] = *corners;
    Rect {
        x: Span { low: x1, high: x2 },
        y: Span { low: y1, high: y2 },
    }
}

#[test]
fn meetings(rt: HostRuntime) {
    for row in &MET {
        let r = rect(&row.rect);
        let b = rect(&row.area);
        assert_eq!(rt; zone_meets(&r, row.out, &b), row.met);
        // what the zone does not meet lies apart, seen from either side
        assert_eq!(rt; apart(row.out, &r, &b), !row.met);
        assert_eq!(rt; apart(row.out, &b, &r), !row.met);
    }
}
