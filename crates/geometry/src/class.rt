// Classes of connections.
ghost use Rattle.std.specs.Prelude.{T};
ghost use Rattle.geometry.specs.Ranges.{class_measures};

/// A class of connections: half the width of a wire, the space beside it, and half the size of a via's pad.
#[derive(Clone, Copy, Debug, PartialEq, Eq, Hash)]
pub struct Class {
    pub half: u16,
    pub space: u16,
    pub pad: u16,
    ghost measured: { T (class_measures half space pad) },
}
