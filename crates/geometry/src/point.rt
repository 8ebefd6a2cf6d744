// Points of the grid of whole units.
ghost use Rattle.std.specs.Prelude.{◌≡◌};
ghost use Rattle.geometry.specs.Axes.{coordinate_of};

use crate::axis::Axis;

/// A point: a layer, counted from 1, and whole units along x and y.
#[derive(Clone, Copy, Debug, PartialEq, Eq, Hash)]
pub struct Point {
    pub layer: u32,
    pub x: u32,
    pub y: u32,
}

impl Point {
    /// The coordinate along an axis.
    pub fn along(&self, axis: Axis) -> u32
        ensures { result ≡ coordinate_of axis self.now }
    {
        match axis {
            Axis::X => self.x,
            Axis::Y => self.y,
        }
    }
}
