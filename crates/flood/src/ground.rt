// The ground that a request is asked on.
ghost use Rattle.std.specs.Prelude.{◌≤◌};

use geometry::{Class, Size};

/// The size of a panel, at most 1,000 by 1,000 units and 8 layers, and the class and net of a request.
#[derive(Clone, Copy, Debug, PartialEq, Eq)]
pub struct Ground {
    pub size: Size,
    pub class: Class,
    pub net: u8,
    ghost narrow: { size.width ≤ 1000 },
    ghost low: { size.height ≤ 1000 },
    ghost flat: { size.layers ≤ 8 },
}
