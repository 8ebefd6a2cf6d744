// Slots that a caller lends, the first of which hold the standing pieces.
ghost use Rattle.std.specs.Prelude.{◌≡◌, ◌+◌, ◌<◌, ◌≤◌, min, [], ◌∷◌, ◌++◌, length, take, is_ok, nat_lt, slice_set};
ghost use Rattle.registers.specs.Standing.{appended_if, without_job, count_of_job, Compacted, ToldPiece};

use crate::register::Full;
use geometry::Piece;

/// The most places that a register has.
pub(crate) const PLACES: usize = 4096;

/// Slots, each a place for a piece, and in how many a piece stands.
// by a rule of the project the caller lends the list, so the count stands beside it; `append` and `compact` are handed both
#[derive(Drop)]
pub(crate) struct Slots<'a> {
    pub pieces: &'a mut [Piece],
    pub count: usize,
    ghost limited: { length pieces.now ≤ 4096 },
    ghost within: { count ≤ length pieces.now },
}

/// Puts a piece into the slot behind the first `count`.
fn append(slots: &mut [Piece], count: usize, p: Piece)
    requires { count < length slots.old }
    ensures stands { take (count + 1) slots.new ≡ take count slots.old ++ (p ∷ []) }
    ensures slots { slots.new ≡ slice_set slots.old count p }
{
    slots[count] = p;
}

/// Moves those of the first `count` pieces that are not of `job` to the front, in their order, and says how many they are.
fn compact(slots: &mut [Piece], count: usize, job: u32) -> usize
    requires { count ≤ length slots.old }
    ensures { Compacted job (take count slots.old) result slots.new }
{
    let mut kept = 0;
    // by index: one slot is read and another written, and a slice has no method that keeps an order in place
    for i in 0..count {
        let p = slots[i];
        if p.job as u32 != job {
            slots[kept] = p;
            kept += 1;
        }
    }
    kept
}

impl<'a> Slots<'a> {
    ghost use Rattle.registers.specs.Filled.{standing, put_if};

    /// The first of some slots, at most so many, in which nothing stands.
    pub(crate) fn new(pieces: &'a mut [Piece], most: usize) -> Slots<'a>
        ensures none { result.count ≡ 0 }
        ensures places { length result.pieces.now ≡ min (min (length pieces.old) most) 4096 }
    {
        let places = pieces.len().min(most).min(PLACES);
        Slots {
            pieces: &mut pieces[..places],
            count: 0,
        }
    }

    /// The pieces that stand.
    pub(crate) fn standing(&self) -> &[Piece]
        ensures { result.now ≡ standing self.now }
    {
        &self.pieces[..self.count]
    }

    /// The k-th piece that stands, counted from 0.
    pub(crate) fn piece(&self, k: usize) -> Option<Piece>
        ensures { ToldPiece (standing self.now) k result }
    {
        self.standing().get(k).copied()
    }

    /// How many places are free.
    pub(crate) fn free(&self) -> usize
        ensures { result + self.now.count ≡ length self.now.pieces.now }
    {
        self.pieces.len() - self.count
    }

    /// Appends a piece while a place is free, and else only refuses.
    pub(crate) fn add(&mut self, p: Piece) -> Result<(), Full>
        ensures answer { is_ok result ≡ nat_lt self.old.count (length self.old.pieces.now) }
        ensures stands { standing self.new ≡ appended_if (is_ok result) p (standing self.old) }
        ensures places { length self.new.pieces.now ≡ length self.old.pieces.now }
        ensures slots { self.new.pieces.now ≡ put_if (is_ok result) self.old.count p self.old.pieces.now }
    {
        if self.free() == 0 {
            return Err(Full);
        }
        append(self.pieces, self.count, p);
        self.count += 1;
        Ok(())
    }

    /// Takes out all pieces of a job, keeps the order of the rest, and says how many went.
    pub(crate) fn take_out(&mut self, job: u32) -> usize
        ensures answer { result ≡ count_of_job job (standing self.old) }
        ensures stands { standing self.new ≡ without_job job (standing self.old) }
        ensures places { length self.new.pieces.now ≡ length self.old.pieces.now }
    {
        let before = self.count;
        let left = compact(self.pieces, before, job);
        self.count = left;
        before - left
    }

    /// Takes out all pieces, and leaves the slots as they are.
    pub(crate) fn clear(&mut self)
        ensures none { self.new.count ≡ 0 }
        ensures places { length self.new.pieces.now ≡ length self.old.pieces.now }
        ensures slots { self.new.pieces.now ≡ self.old.pieces.now }
    {
        self.count = 0;
    }
}
