// What a request asks: a connection of two terminals on a panel.
use geometry::{Axis, Class, Point, Size};

/// What a request asks along one axis: the panel's size, the class and the net, and the coordinates of both terminals.
#[derive(Clone, Copy, Debug, PartialEq, Eq)]
pub struct Extent {
    pub axis: Axis,
    pub size: u32,
    pub class: Class,
    pub net: u8,
    pub first: u32,
    pub second: u32,
}

/// The size of the panel, the class and the net of a connection, and its terminals.
#[derive(Clone, Copy, Debug, PartialEq, Eq)]
pub struct Request {
    pub size: Size,
    pub class: Class,
    pub net: u8,
    pub first: Point,
    pub second: Point,
}

/// Why no path was looked for: sizes or terminals out of range; fewer coordinates than four for each piece and two, which
/// it names, or a list of lines below 1,024; more than 1,024 lines on an axis; fewer notes than nodes, which it names, or
/// fewer places in the frontier than six for each node and one.
#[derive(Clone, Copy, Debug, PartialEq, Eq)]
pub enum Refusal {
    Improper,
    ShortLists(usize),
    TooManyLines,
    ShortNodes(u32),
}
