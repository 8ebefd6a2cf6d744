// The questions about standing pieces, which change nothing.
ghost use Rattle.std.specs.Prelude.{◌≡◌, ◌≤◌, List, length};
ghost use Rattle.geometry.specs.declared.piece.Piece.{Piece as StandingPiece};
ghost use Rattle.registers.specs.Standing.{ToldPiece, ToldInWay};

use geometry::{Piece, Question};

/// The standing pieces in order of arrival, never more than 4,096.
pub trait Pieces {
    ghost pieces: { Self → List StandingPiece };

    ghost few: { (s : Self) → length (pieces s) ≤ 4096 };

    /// How many pieces stand.
    fn count(&self) -> usize
        ensures { result ≡ length (pieces self.now) };

    /// The k-th piece, counted from 0.
    fn piece(&self, k: usize) -> Option<Piece>
        ensures { ToldPiece (pieces self.now) k result };

    /// The job number of a piece that is in the way, if there is one.
    fn in_the_way(&self, q: &Question) -> Option<u16>
        ensures { ToldInWay q.now (pieces self.now) result };
}
