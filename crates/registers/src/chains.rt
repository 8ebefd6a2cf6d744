// All chains of a strip register, through a row of links that the caller lends.
ghost use Rattle.std.specs.Prelude.{◌≡◌, ◌<◌, ◌≤◌, true, length, slice_index};
ghost use Rattle.geometry.specs.Lists.{all_of};
ghost use Rattle.registers.specs.Strips.{unused};

use crate::chain::{Chain, NO_PIECES};
use crate::strips::{CHAINS, Strips};
use geometry::Piece;

/// What a link holds where no piece is before: links are lent as plain numbers.
const NO_PIECE: u16 = u16::MAX;

/// Chains of pieces, strip by strip. A link says where the piece before stands that belongs to the same chain.
#[derive(Drop)]
pub(crate) struct Chains<'a> {
    pub links: &'a mut [u16],
    pub heads: [Chain; CHAINS],
    pub strips: Strips,
}

impl<'a> Chains<'a> {
    ghost use Rattle.registers.specs.Chainings.{head_at, place_of, PutLast, Rechained};

    /// Chains of no pieces.
    pub(crate) fn new(links: &'a mut [u16], height: u32) -> Chains<'a>
        ensures empty { all_of unused result.heads ≡ true }
        ensures links { result.links.now ≡ links.old }
        ensures height { result.strips.height ≡ height }
    {
        Chains {
            links,
            heads: [NO_PIECES; CHAINS],
            strips: Strips { height },
        }
    }

    /// Takes all pieces out of the chains.
    pub(crate) fn clear(&mut self)
        ensures empty { all_of unused self.new.heads ≡ true }
        ensures links { self.new.links.now ≡ self.old.links.now }
        ensures height { self.new.strips ≡ self.old.strips }
    {
        self.heads = [NO_PIECES; CHAINS];
    }

    /// Where the last piece of a chain stands.
    pub(crate) fn last(&self, s: usize) -> Option<usize>
        requires { s < CHAINS }
        ensures { result ≡ (head_at self.now s).last }
    {
        self.heads[s].last.map(|k| k as usize)
    }

    /// Where the piece before the `i`-th in its chain stands.
    pub(crate) fn before(&self, i: usize) -> Option<usize>
        requires { i < length self.now.links.now }
        ensures { result ≡ place_of (slice_index self.now.links.now i) }
    {
        let k = self.links[i];
        (k != NO_PIECE).then_some(k as usize)
    }

    /// Puts the piece at `i`, which stands behind all that are chained, at the end of its chain.
    pub(crate) fn link(&mut self, i: usize, p: &Piece)
        requires inside { i < length self.old.links.now }
        requires few { i < 4096 }
        ensures { PutLast i p.now self.old self.new }
    {
        let s = self.strips.chain_of(p);
        let head = self.heads[s];
        self.links[i] = head.last.unwrap_or(NO_PIECE);
        self.heads[s] = head.with(i as u16, p);
    }

    /// Chains these pieces, and no others.
    pub(crate) fn link_all(&mut self, pieces: &[Piece])
        requires inside { length pieces.now ≤ length self.old.links.now }
        requires few { length pieces.now ≤ 4096 }
        ensures { Rechained pieces.now self.old self.new }
    {
        self.clear();
        for (i, p) in pieces.iter().enumerate() {
            self.link(i, p);
        }
    }
}
