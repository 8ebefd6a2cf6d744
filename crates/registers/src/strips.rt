// How y is cut into strips, and which chain a piece belongs to.
ghost use Rattle.std.specs.Prelude.{◌≡◌, ◌+◌, ◌<◌, ◌≤◌};
ghost use Rattle.registers.specs.Strips.{strip_height, strip_of, is_tall, layer_chain, first_chain, chain_of};

use geometry::{Piece, Span};

/// The number of layers whose chains are apart.
const LAYERS: usize = 8;

/// The number of strips that y is cut into.
const STRIPS: usize = 16;

/// The number of chains of a layer: each strip has one of its low pieces, and one of its tall ones.
pub(crate) const LAYER_CHAINS: usize = 2 * STRIPS;

/// The number of all chains.
pub(crate) const CHAINS: usize = LAYERS * LAYER_CHAINS;

/// The first chain of a layer. Layers that are eight apart share their chains.
pub(crate) fn first_chain(layer: u8) -> usize
    ensures is { result ≡ first_chain layer }
    ensures inside { result + LAYER_CHAINS ≤ CHAINS }
{
    layer as usize % LAYERS * LAYER_CHAINS
}

/// The strips of a panel of this height.
#[derive(Clone, Copy, Debug, PartialEq, Eq)]
pub(crate) struct Strips {
    pub height: u32,
}

impl Strips {
    /// How high a strip is.
    fn strip_height(&self) -> u32
        ensures { result ≡ strip_height self.now.height }
    {
        self.height / STRIPS as u32 + 1
    }

    /// The strip of a low border in y. What lies below the strips belongs to the first, what lies above them to the last.
    fn strip_of(&self, y: &Span) -> usize
        ensures { result ≡ strip_of self.now.height y.now }
    {
        let low = y.low.max(0) as u32;
        let strip = low / self.strip_height();
        (strip as usize).min(STRIPS - 1)
    }

    /// Whether a span is longer than a strip is high.
    fn is_tall(&self, y: &Span) -> bool
        ensures { result ≡ is_tall self.now.height y.now }
    {
        y.low as i64 + (self.strip_height() as i64) < y.high as i64
    }

    /// The chain, among those of its layer, of a piece with these borders in y.
    fn layer_chain(&self, y: &Span) -> usize
        ensures is { result ≡ layer_chain self.now.height y.now }
        ensures inside { result < LAYER_CHAINS }
    {
        let strip = self.strip_of(y);
        if self.is_tall(y) {
            strip + STRIPS
        } else {
            strip
        }
    }

    /// The chain that a piece belongs to.
    pub(crate) fn chain_of(&self, p: &Piece) -> usize
        ensures is { result ≡ chain_of self.now.height p.now }
        ensures inside { result < CHAINS }
    {
        first_chain(p.layer) + self.layer_chain(&p.rect.y)
    }
}
