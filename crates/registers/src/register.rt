// What changes the standing pieces.
ghost use Rattle.std.specs.Prelude.{◌≡◌, ℕ, ◌+◌, ◌≤◌, [], length, is_ok, nat_lt};
ghost use Rattle.registers.specs.Standing.{appended_if, without_job, count_of_job};

use crate::pieces::Pieces;
use geometry::Piece;

/// What a register says that has no free place.
// of its own: neither crate uses the other, and `queue` says that of a queue
#[derive(Clone, Copy, Debug, PartialEq, Eq)]
pub struct Full;

/// A fixed number of places for pieces, at most 4,096 and never fewer than pieces stand.
pub trait Register: Pieces {
    ghost places: { Self → ℕ };

    ghost limited: { (s : Self) → places s ≤ 4096 };

    /// How many places are free.
    fn free(&self) -> usize
        ensures { result + length (Self.Pieces.pieces self.now) ≡ places self.now };

    /// Appends a piece while fewer pieces than places stand, and else only refuses.
    fn add(&mut self, p: Piece) -> Result<(), Full>
        ensures answer { is_ok result ≡ nat_lt (length (Self.Pieces.pieces self.old)) (places self.old) }
        ensures stands { Self.Pieces.pieces self.new ≡ appended_if (is_ok result) p (Self.Pieces.pieces self.old) }
        ensures places { places self.new ≡ places self.old };

    /// Takes out all pieces of a job, keeps the order of the rest, and says how many went.
    fn take_out(&mut self, job: u32) -> usize
        ensures answer { result ≡ count_of_job job (Self.Pieces.pieces self.old) }
        ensures stands { Self.Pieces.pieces self.new ≡ without_job job (Self.Pieces.pieces self.old) }
        ensures places { places self.new ≡ places self.old };

    /// Takes out all pieces.
    fn clear(&mut self)
        ensures stands { Self.Pieces.pieces self.new ≡ [] }
        ensures places { places self.new ≡ places self.old };
}
