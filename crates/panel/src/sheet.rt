// The sheet that a panel is opened from.
ghost use Rattle.std.specs.Prelude.{T};
ghost use Rattle.panel.specs.Sizes.{panel_size};

use geometry::{Class, Size};

/// The size of a panel, and the classes 1 to 16, as far as they are set. It is no copy of another: opening a panel uses it up.
#[derive(Debug, PartialEq, Eq, Drop)]
pub struct Sheet {
    pub(crate) size: Size,
    pub(crate) classes: [Option<Class>; 16],
    ghost sized: { T (panel_size size) },
}
