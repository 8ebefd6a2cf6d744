// Sizes and classes of a sheet, up to the last number of 32 bits.
use geometry::{Measures, Size};
use panel::{Sheet, SheetRefusal};

/// Width, height and layers, and what setting them answers.
const SIZES: [(u32, u32, u32, Result<(), SheetRefusal>); 14] = [
    (1, 1, 1, Ok(())),
    (60_000, 60_000, 8, Ok(())),
    (0, 1, 1, Err(SheetRefusal::Size)),
    (1, 0, 1, Err(SheetRefusal::Size)),
    (1, 1, 0, Err(SheetRefusal::Size)),
    (60_001, 1, 1, Err(SheetRefusal::Size)),
    (1, 60_001, 1, Err(SheetRefusal::Size)),
    (1, 1, 9, Err(SheetRefusal::Size)),
    (65_537, 1, 1, Err(SheetRefusal::Size)),
    (1, 1, 257, Err(SheetRefusal::Size)),
    (u32::MAX, 1, 1, Err(SheetRefusal::Size)),
    (1, u32::MAX, 1, Err(SheetRefusal::Size)),
    (1, 1, u32::MAX, Err(SheetRefusal::Size)),
    (u32::MAX, u32::MAX, u32::MAX, Err(SheetRefusal::Size)),
];

/// Number, half width, space and pad of a class, and what setting it answers.
const CLASSES: [(u32, u32, u32, u32, Result<(), SheetRefusal>); 17] = [
    (1, 1, 0, 1, Ok(())),
    (16, 500, 1000, 1000, Ok(())),
    (16, 500, 0, 500, Ok(())),
    (0, 1, 0, 1, Err(SheetRefusal::Class)),
    (17, 1, 0, 1, Err(SheetRefusal::Class)),
    (257, 1, 0, 1, Err(SheetRefusal::Class)),
    (u32::MAX, 1, 0, 1, Err(SheetRefusal::Class)),
    (1, 0, 0, 1, Err(SheetRefusal::Class)),
    (1, 501, 0, 1000, Err(SheetRefusal::Class)),
    (1, 1, 1001, 1, Err(SheetRefusal::Class)),
    (1, 2, 0, 1, Err(SheetRefusal::Class)),
    (1, 1, 0, 1001, Err(SheetRefusal::Class)),
    (1, 65_537, 0, 65_537, Err(SheetRefusal::Class)),
    (1, u32::MAX, 0, 1, Err(SheetRefusal::Class)),
    (1, 1, u32::MAX, 1, Err(SheetRefusal::Class)),
    (1, 1, 0, u32::MAX, Err(SheetRefusal::Class)),
    (1, u32::MAX, 0, u32::MAX, Err(SheetRefusal::Class)),
];

#[test]
fn sizes(rt: HostRuntime) {
    for (width, height, layers, answer) in &SIZES {
        let mut sheet = Sheet::new();
        let size = Size {
            width: *width,
            height: *height,
            layers: *layers,
        };
        assert_eq!(rt; sheet.set_size(size), *answer);
    }
}

#[test]
fn classes(rt: HostRuntime) {
    for (number, half, space, pad, answer) in &CLASSES {
        let mut sheet = Sheet::new();
        let measures = Measures {
            half: *half,
            space: *space,
            pad: *pad,
        };
        assert_eq!(rt; sheet.set_class(*number, measures), *answer);
        assert_eq!(rt; sheet.set_class(*number, measures), *answer);
    }
}
