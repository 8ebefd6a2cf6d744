// The size of a panel.
ghost use Rattle.std.specs.Prelude.{◌≡◌};
ghost use Rattle.geometry.specs.Sizes.{within, has_layer, covers, has};

use crate::point::Point;

/// The longest side of a panel, in units.
pub const SIDE: u32 = 60_000;

/// The most layers of a panel.
pub const LAYERS: u32 = 8;

/// The size of a panel: its width and height in units, and how many layers it has.
#[derive(Clone, Copy, Debug, PartialEq, Eq, Hash)]
pub struct Size {
    pub width: u32,
    pub height: u32,
    pub layers: u32,
}

impl Size {
    /// Whether no side is longer than `side`, and there are no more than so many layers.
    pub fn is_within(&self, side: u32, layers: u32) -> bool
        ensures { result ≡ within side layers self.now }
    {
        self.width <= side && self.height <= side && self.layers <= layers
    }

    /// Whether a panel of this size has a layer of this number.
    pub fn has_layer(&self, layer: u32) -> bool
        ensures { result ≡ has_layer self.now layer }
    {
        (1..=self.layers).contains(&layer)
    }

    /// Whether a panel of this size reaches to these coordinates.
    pub fn covers(&self, x: u32, y: u32) -> bool
        ensures { result ≡ covers self.now x y }
    {
        x <= self.width && y <= self.height
    }

    /// Whether a panel of this size has a point.
    pub fn has(&self, p: &Point) -> bool
        ensures { result ≡ has self.now p.now }
    {
        self.has_layer(p.layer) && self.covers(p.x, p.y)
    }
}
