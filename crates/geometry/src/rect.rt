// Rectangles, axis by axis.
ghost use Rattle.std.specs.Prelude.{◌≡◌};
ghost use Rattle.geometry.specs.Axes.{axis_of};

use crate::axis::Axis;

/// The borders of a rectangle along one axis.
#[derive(Clone, Copy, Debug, PartialEq, Eq, Hash)]
pub struct Span {
    pub low: i32,
    pub high: i32,
}

/// A rectangle. That of a laid piece may stick out of the panel.
#[derive(Clone, Copy, Debug, PartialEq, Eq, Hash)]
pub struct Rect {
    pub x: Span,
    pub y: Span,
}

impl Rect {
    /// The borders along an axis.
    pub fn along(&self, axis: Axis) -> Span
        ensures { result ≡ axis_of axis self.now }
    {
        match axis {
            Axis::X => self.x,
            Axis::Y => self.y,
        }
    }
}
