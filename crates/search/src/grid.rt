// The grid of a request: its lines, and how many nodes they make.
ghost use Rattle.std.specs.Prelude.{◌≡◌, ℕ, ◌≤◌, length, slice_index};

use crate::lattice::Lattice;
use crate::request::Request;

/// The crossings of a request's lines, with the kind of its cost and the pieces that stand. A line lies on the largest panel, so
/// that no move is longer than 60,000 units.
// `xs` and `ys` stay slices, each with a fact of its own: with a struct of the lines along an axis in their place, least_cost, which
// cuts both out of the lists that it is lent, got no proof. The lattice counts them again, so that nodes are numbered without lists.
#[derive(Drop)]
pub struct Grid<'a, K, P> {
    pub request: Request,
    pub lattice: Lattice,
    pub kind: K,
    pub xs: &'a [u32],
    pub ys: &'a [u32],
    pub register: &'a P,
    ghost columns: { lattice.columns ≡ length xs.now },
    ghost rows: { lattice.rows ≡ length ys.now },
    ghost near: { (i : ℕ) → slice_index xs.now i ≤ 60000 },
    ghost close: { (i : ℕ) → slice_index ys.now i ≤ 60000 },
}
