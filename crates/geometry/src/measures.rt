// The measures that a class may have.
ghost use Rattle.std.specs.Prelude.{◌≡◌, is_some, IfSome};
ghost use Rattle.geometry.specs.Ranges.{class_measures};
ghost use Rattle.geometry.specs.Classes.{HasMeasures};

use crate::class::Class;

/// Measures as they are asked for a class: half the width of a wire, the space beside it, and half the size of a via's pad.
#[derive(Clone, Copy, Debug, PartialEq, Eq, Hash)]
pub struct Measures {
    pub half: u32,
    pub space: u32,
    pub pad: u32,
}

impl Measures {
    /// Whether a class may have these measures.
    fn suit_a_class(&self) -> bool
        ensures { result ≡ class_measures self.now.half self.now.space self.now.pad }
    {
        (1..=500).contains(&self.half)
            && self.space <= 1000
            && (self.half..=1000).contains(&self.pad)
    }
}

impl Class {
    /// A class with these measures, if a class may have them.
    pub fn new(measures: Measures) -> Option<Class>
        ensures answer { is_some result ≡ class_measures measures.half measures.space measures.pad }
        ensures measures { IfSome result (HasMeasures measures.half measures.space measures.pad) }
    {
        if !measures.suit_a_class() {
            return None;
        }
        // in range by the test, so that a cast is plainer than a conversion that could fail
        Some(Class {
            half: measures.half as u16,
            space: measures.space as u16,
            pad: measures.pad as u16,
        })
    }
}
