// Opening a ground.
ghost use Rattle.std.specs.Prelude.{◌≡◌, is_some, IfSome};
ghost use Rattle.flood.specs.Grounds.{small, Asked};

use crate::ground::Ground;
use geometry::{Class, Size};

impl Ground {
    /// The ground of a request, absent where the panel is too large for a flood.
    pub fn new(size: Size, class: Class, net: u8) -> Option<Ground>
        ensures answer { is_some result ≡ small size }
        ensures rules { IfSome result (Asked size class net) }
    {
        if !size.is_within(1000, 8) {
            return None;
        }
        Some(Ground { size, class, net })
    }
}
