// Which pieces are in the way, and which keep clear.
use geometry::{Mark, Piece, Question, Rect, Span, in_way, keep_clear, room_of};
use std::test::Fail;

const HERE: Rect = Rect {
    x: Span { low: 40, high: 50 },
    y: Span { low: 0, high: 60 },
};

/// A piece at `HERE` of space `space`, and a question for net 7 on layer 1 at space 3 about the point `x`, 30.
#[derive(Debug, PartialEq, Eq)]
struct Way {
    layer: u8,
    net: u8,
    space: u16,
    mark: Mark,
    reach: u16,
    x: i32,
    laid: bool,
    in_way: bool,
}

const WAYS: [Way; 14] = [
    Way {
        layer: 1,
        net: 0,
        space: 0,
        mark: Mark::Placed,
        reach: 3,
        x: 35,
        laid: false,
        in_way: true,
    },
    Way {
        layer: 1,
        net: 0,
        space: 0,
        mark: Mark::Placed,
        reach: 3,
        x: 34,
        laid: false,
        in_way: false,
    },
    // the larger of the spaces counts
    Way {
        layer: 1,
        net: 0,
        space: 3,
        mark: Mark::Placed,
        reach: 3,
        x: 34,
        laid: false,
        in_way: false,
    },
    Way {
        layer: 1,
        net: 0,
        space: 4,
        mark: Mark::Placed,
        reach: 3,
        x: 34,
        laid: false,
        in_way: true,
    },
    Way {
        layer: 1,
        net: 0,
        space: 1000,
        mark: Mark::Placed,
        reach: 1000,
        x: -1960,
        laid: false,
        in_way: false,
    },
    Way {
        layer: 1,
        net: 0,
        space: 1000,
        mark: Mark::Placed,
        reach: 1000,
        x: -1959,
        laid: false,
        in_way: true,
    },
    // layers
    Way {
        layer: 2,
        net: 0,
        space: 0,
        mark: Mark::Placed,
        reach: 3,
        x: 45,
        laid: false,
        in_way: false,
    },
    Way {
        layer: 0,
        net: 0,
        space: 0,
        mark: Mark::Placed,
        reach: 3,
        x: 45,
        laid: false,
        in_way: false,
    },
    // nets
    Way {
        layer: 1,
        net: 7,
        space: 0,
        mark: Mark::Placed,
        reach: 3,
        x: 45,
        laid: false,
        in_way: false,
    },
    Way {
        layer: 1,
        net: 8,
        space: 0,
        mark: Mark::Placed,
        reach: 3,
        x: 45,
        laid: false,
        in_way: true,
    },
    // marks
    Way {
        layer: 1,
        net: 8,
        space: 0,
        mark: Mark::Placed,
        reach: 3,
        x: 45,
        laid: true,
        in_way: false,
    },
    Way {
        layer: 1,
        net: 8,
        space: 0,
        mark: Mark::Laid,
        reach: 3,
        x: 45,
        laid: true,
        in_way: true,
    },
    Way {
        layer: 1,
        net: 8,
        space: 0,
        mark: Mark::Laid,
        reach: 3,
        x: 45,
        laid: false,
        in_way: true,
    },
    Way {
        layer: 1,
        net: 7,
        space: 0,
        mark: Mark::Laid,
        reach: 3,
        x: 45,
        laid: true,
        in_way: false,
    },
];

#[test]
fn ways(rt: HostRuntime) {
    for row in &WAYS {
        let p = Piece {
            layer: row.layer,
            rect: HERE,
            net: row.net,
            space: row.space,
            job: 1,
            mark: row.mark,
        };
        let point = Rect {
            x: Span {
                low: row.x,
                high: row.x,
            },
            y: Span { low: 30, high: 30 },
        };
        let q = Question {
            layer: 1,
            net: 7,
            reach: row.reach,
            space: 3,
            area: point,
            laid: row.laid,
        };
        assert_eq!(rt; in_way(&q, &p), row.in_way);
    }
}

/// A piece of net 7 and space 3, and one of space 0 at a gap beside it.
#[derive(Debug, PartialEq, Eq)]
struct Gap {
    gap: i32,
    mark: Mark,
    net: u8,
    beside: Mark,
    clear: bool,
}

const GAPS: [Gap; 8] = [
    Gap {
        gap: 3,
        mark: Mark::Laid,
        net: 8,
        beside: Mark::Placed,
        clear: true,
    },
    Gap {
        gap: 2,
        mark: Mark::Laid,
        net: 8,
        beside: Mark::Placed,
        clear: false,
    },
    Gap {
        gap: 2,
        mark: Mark::Placed,
        net: 8,
        beside: Mark::Laid,
        clear: false,
    },
    Gap {
        gap: 2,
        mark: Mark::Laid,
        net: 8,
        beside: Mark::Laid,
        clear: false,
    },
    // two placed pieces owe one another nothing, nor do pieces of one net
    Gap {
        gap: 2,
        mark: Mark::Placed,
        net: 8,
        beside: Mark::Placed,
        clear: true,
    },
    Gap {
        gap: -5,
        mark: Mark::Placed,
        net: 0,
        beside: Mark::Placed,
        clear: true,
    },
    Gap {
        gap: 2,
        mark: Mark::Laid,
        net: 7,
        beside: Mark::Laid,
        clear: true,
    },
    Gap {
        gap: 2,
        mark: Mark::Laid,
        net: 0,
        beside: Mark::Placed,
        clear: false,
    },
];

#[test]
fn gaps(rt: HostRuntime) -> Result<(), Fail> {
    for row in &GAPS {
        if row.gap < -10 || row.gap > 10 {
            return Err(Fail::new("the gap"));
        }
        let left = Rect {
            x: Span { low: 0, high: 10 },
            y: Span { low: 0, high: 10 },
        };
        let right = Rect {
            x: Span {
                low: 10 + row.gap,
                high: 20 + row.gap,
            },
            y: Span { low: 0, high: 10 },
        };
        let a = Piece {
            layer: 1,
            rect: left,
            net: 7,
            space: 3,
            job: 1,
            mark: row.mark,
        };
        let b = Piece {
            layer: 1,
            rect: right,
            net: row.net,
            space: 0,
            job: 2,
            mark: row.beside,
        };
        assert_eq!(rt; keep_clear(&a, &b), row.clear);
        assert_eq!(rt; keep_clear(&b, &a), row.clear);
        assert_eq!(rt; in_way(&room_of(&b), &a), !row.clear);
    }
    Ok(())
}
