// The calls on a panel, with their arguments as wide as a stranger may hand them in, and their answers.
use crate::refusal::Refusal;

/// A piece to be placed.
#[derive(Clone, Copy, Debug, PartialEq, Eq)]
pub struct Placement {
    pub layer: u32,
    pub x1: u32,
    pub y1: u32,
    pub x2: u32,
    pub y2: u32,
    pub net: u32,
    pub space: u32,
}

/// A call on a panel.
#[derive(Clone, Copy, Debug, PartialEq, Eq)]
pub enum Call {
    Place(Placement),
    Lift(u32),
}

/// What an accepted call did: it gave a job number, or took out so many pieces.
// In 32 bits, since a run keeps an answer for each call: as wide as an address it would take each answer twice the room.
#[derive(Clone, Copy, Debug, PartialEq, Eq)]
pub enum Done {
    Placed(u16),
    Lifted(u32),
}

/// What a call is answered with.
pub type Answer = Result<Done, Refusal>;
