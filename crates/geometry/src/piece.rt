// Pieces: what stands on a panel.
use crate::rect::Rect;

/// Whether a piece was placed by itself, or laid as a part of a connection.
#[derive(Clone, Copy, Debug, PartialEq, Eq, Hash)]
pub enum Mark {
    Placed,
    Laid,
}

/// What stands on one layer. Net 0 marks a keep-out.
// Layers, nets and job numbers are the customer's numbers, which jobs read and print.
#[derive(Clone, Copy, Debug, PartialEq, Eq, Hash)]
pub struct Piece {
    pub layer: u8,
    pub rect: Rect,
    pub net: u8,
    pub space: u16,
    pub job: u16,
    pub mark: Mark,
}
