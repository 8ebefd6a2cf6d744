// The strip register: pieces in the first of a row of slots, chained strip by strip.
ghost use Rattle.std.specs.Prelude.{◌≡◌, ◌<◌, ◌≤◌, min, [], length};
ghost use Rattle.registers.specs.Filled.{standing};
ghost use Rattle.registers.specs.Chainings.{Linked, Headed, Bounded};

use crate::chains::Chains;
use crate::pieces::Pieces;
use crate::register::{Full, Register};
use crate::slots::Slots;
use crate::strips::{CHAINS, LAYER_CHAINS, first_chain};
use geometry::{Piece, Question, in_way};

/// A register over lent slots and lent links, with as many places as the fewer of them, at most 4,096. A question goes only
/// through the chains that reach near it.
#[derive(Drop)]
pub struct StripRegister<'a> {
    slots: Slots<'a>,
    chains: Chains<'a>,
    ghost roomy: { length slots.pieces.now ≤ length chains.links.now },
    ghost linked: { Linked (standing slots) chains },
    ghost headed: { Headed (standing slots) chains },
    ghost bounded: { Bounded (standing slots) chains },
}

impl<'a> StripRegister<'a> {
    ghost use Rattle.registers.specs.StripRegisters.{strip_places, strip_pieces, ToldInChain};

    /// A register over `slots` and `links` in which nothing stands, with strips for a panel of this height.
    pub fn new(slots: &'a mut [Piece], links: &'a mut [u16], height: u32) -> StripRegister<'a>
        ensures stands { strip_pieces result ≡ [] }
        ensures places { strip_places result ≡ min (min (length slots.old) (length links.old)) 4096 }
        ensures height { result.chains.strips.height ≡ height }
    {
        StripRegister {
            slots: Slots::new(slots, links.len()),
            chains: Chains::new(links, height),
        }
    }

    /// The job number of a piece of chain `s` that is in the way.
    fn find_in_chain(&self, s: usize, q: &Question) -> Option<u16>
        requires { s < CHAINS }
        ensures { ToldInChain s q.now self.now result }
    {
        let pieces = self.slots.standing();
        let mut place = self.chains.last(s);
        // tried over `successors`: no proof that each place it comes to lies within the links, as `find` asks beforehand
        while let Some(i) = place {
            // by copy: the test is slower through a reference
            let p = pieces[i];
            if in_way(q, &p) {
                return Some(p.job);
            }
            place = self.chains.before(i);
        }
        None
    }
}

impl<'a> Pieces for StripRegister<'a> {
    ghost use Rattle.registers.specs.StripRegisters.{strip_pieces, strip_few};

    ghost pieces = { strip_pieces };

    ghost few = { strip_few };

    fn count(&self) -> usize {
        self.slots.count
    }

    fn piece(&self, k: usize) -> Option<Piece> {
        self.slots.piece(k)
    }

    fn in_the_way(&self, q: &Question) -> Option<u16> {
        let first = first_chain(q.layer);
        let heads = &self.chains.heads[first..first + LAYER_CHAINS];
        // tried as a `find_map`: proved, but a tenth slower at 120 pieces
        for (s, head) in heads.iter().enumerate() {
            if head.near(q) {
                if let Some(job) = self.find_in_chain(first + s, q) {
                    return Some(job);
                }
            }
        }
        None
    }
}

impl<'a> Register for StripRegister<'a> {
    ghost use Rattle.registers.specs.StripRegisters.{strip_places};

    ghost places = { strip_places };

    ghost limited = { λ r. r.slots.limited };

    fn free(&self) -> usize {
        self.slots.free()
    }

    fn add(&mut self, p: Piece) -> Result<(), Full> {
        let i = self.slots.count;
        self.slots.add(p)?;
        self.chains.link(i, &p);
        Ok(())
    }

    fn take_out(&mut self, job: u32) -> usize {
        let went = self.slots.take_out(job);
        let slots = &self.slots;
        self.chains.link_all(slots.standing());
        went
    }

    fn clear(&mut self) {
        self.slots.clear();
        self.chains.clear();
    }
}
