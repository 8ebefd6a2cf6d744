// Which classes there are, and which nets are different.
use geometry::{Class, Measures, different_nets};

/// Measures, half, space and pad, and whether a class may have them.
const MEASURES: [(u32, u32, u32, bool); 12] = [
    (1, 0, 1, true),
    (2, 3, 3, true),
    (500, 1000, 1000, true),
    (500, 1000, 500, true),
    (0, 3, 3, false),
    (501, 3, 600, false),
    (2, 1001, 3, false),
    (2, 3, 1, false),
    (2, 3, 1001, false),
    (65538, 3, 65539, false),
    (2, 65539, 3, false),
    (4294967295, 4294967295, 4294967295, false),
];

#[test]
fn classes(rt: HostRuntime) {
    for (half, space, pad, made) in &MEASURES {
        let measures = Measures {
            half: *half,
            space: *space,
            pad: *pad,
        };
        let class = Class::new(measures);
        assert_eq!(rt; class.is_some(), *made);
        if let Some(c) = class {
            let has = Measures {
                half: c.half as u32,
                space: c.space as u32,
                pad: c.pad as u32,
            };
            assert_eq!(rt; has, measures);
        }
    }
}

const NETS: [(u8, u8, bool); 6] = [
    (0, 0, true),
    (0, 7, true),
    (7, 0, true),
    (7, 7, false),
    (7, 8, true),
    (255, 255, false),
];

#[test]
fn nets(rt: HostRuntime) {
    for (a, b, differ) in &NETS {
        assert_eq!(rt; different_nets(*a, *b), *differ);
    }
}
