// The plain register: pieces in the first of a row of slots that the caller lends.
ghost use Rattle.std.specs.Prelude.{◌≡◌, min, [], length};
ghost use Rattle.registers.specs.Plains.{plain_places, plain_pieces, plain_few};

use crate::pieces::Pieces;
use crate::register::{Full, Register};
use crate::slots::{PLACES, Slots};
use geometry::{Piece, Question, in_way};

/// A register over lent slots, with as many places as there are slots, at most 4,096.
#[derive(Drop)]
pub struct PlainRegister<'a> {
    slots: Slots<'a>,
}

impl<'a> PlainRegister<'a> {
    /// A register over `slots` in which nothing stands.
    pub fn new(slots: &'a mut [Piece]) -> PlainRegister<'a>
        ensures stands { plain_pieces result ≡ [] }
        ensures places { plain_places result ≡ min (length slots.old) 4096 }
    {
        PlainRegister {
            slots: Slots::new(slots, PLACES),
        }
    }
}

impl<'a> Pieces for PlainRegister<'a> {
    ghost pieces = { plain_pieces };

    ghost few = { plain_few };

    fn count(&self) -> usize {
        self.slots.count
    }

    fn piece(&self, k: usize) -> Option<Piece> {
        self.slots.piece(k)
    }

    fn in_the_way(&self, q: &Question) -> Option<u16> {
        let pieces = self.slots.standing();
        pieces.iter().find(|p| in_way(q, p)).map(|p| p.job)
    }
}

impl<'a> Register for PlainRegister<'a> {
    ghost places = { plain_places };

    ghost limited = { λ r. r.slots.limited };

    fn free(&self) -> usize {
        self.slots.free()
    }

    fn add(&mut self, p: Piece) -> Result<(), Full> {
        self.slots.add(p)
    }

    fn take_out(&mut self, job: u32) -> usize {
        self.slots.take_out(job)
    }

    fn clear(&mut self) {
        self.slots.clear();
    }
}
