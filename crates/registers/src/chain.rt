// One chain of pieces.
ghost use Rattle.std.specs.Prelude.{◌≡◌};
ghost use Rattle.registers.specs.Strips.{joined, chain_with, chain_near};

use geometry::{Piece, Question, Span, zone_crosses};

/// A chain: where its last piece stands, if it has one, the largest space of its pieces, and their lowest and highest border
/// in y.
#[derive(Clone, Copy, Debug, PartialEq, Eq)]
pub(crate) struct Chain {
    pub last: Option<u16>,
    pub space: u16,
    pub y: Span,
}

/// A chain of no pieces.
pub(crate) const NO_PIECES: Chain = Chain {
    last: None,
    space: 0,
    y: Span {
        low: i32::MAX,
        high: i32::MIN,
    },
};

/// The least span that holds two.
fn join(a: &Span, b: &Span) -> Span
    ensures { result ≡ joined a.now b.now }
{
    Span {
        low: a.low.min(b.low),
        high: a.high.max(b.high),
    }
}

impl Chain {
    /// The chain with one piece more, the `k`-th.
    pub(crate) fn with(&self, k: u16, p: &Piece) -> Chain
        ensures { result ≡ chain_with k p.now self.now }
    {
        Chain {
            last: Some(k),
            space: self.space.max(p.space),
            y: join(&self.y, &p.rect.y),
        }
    }

    /// Whether a piece within the chain's bounds can be in the way, as far as y and the spaces tell.
    pub(crate) fn near(&self, q: &Question) -> bool
        ensures { result ≡ chain_near q.now self.now }
    {
        let out = q.reach as u32 + q.space.max(self.space) as u32;
        zone_crosses(&self.y, out, &q.area.y)
    }
}
