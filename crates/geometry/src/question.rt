// What a register of pieces is asked.
use crate::rect::Rect;

/// The question whether a piece is in the way of `area`, at a reach and a space, for a net on a layer. If `laid` is set, only
/// laid pieces count.
#[derive(Clone, Copy, Debug, PartialEq, Eq, Hash)]
pub struct Question {
    pub layer: u8,
    pub net: u8,
    pub reach: u16,
    pub space: u16,
    pub area: Rect,
    // a yes or no, with no value beside it
    pub laid: bool,
}
