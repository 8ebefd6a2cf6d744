// Graphs whose moves have a price.
ghost use Rattle.std.specs.Prelude.{◌≡◌, ℕ, ◌<◌, Some};
ghost use Rattle.costs.specs.Amounts.{Sums};
ghost use Rattle.frontier.specs.Graphs.{Shape, Bounded, Toward};

use costs::Amount;

/// A graph of nodes with at most six neighbours each, some of the 0th to the 5th.
/// What is answered for numbers that are no nodes or no neighbours, and for a k above 5, is free.
// The k is an index: names for six directions would be those of a grid, of which a graph knows nothing.
pub trait Graph<C: Amount> {
    ghost shape: { Self → Shape };

    ghost bounded: { (g : Self) → Bounded (shape g) };

    /// The price of the move from a node to a neighbour, in the meanings of amounts.
    ghost price: { {M : Type 0} → Sums M → (C → M) → Self → ℕ → ℕ → M };

    /// How many nodes there are: they are the numbers below it.
    fn size(&self) -> u32
        ensures { result ≡ (shape self.now).size };

    /// The k-th neighbour of a node, and the price of the move to it.
    fn toward(&self, node: u32, k: u32) -> Option<(u32, C)>
        ensures { node < (shape self.now).size → k < 6
            → Toward C.Amount.sums C.Amount.means (shape self.now)
            (price C.Amount.sums C.Amount.means self.now) node k result };

    /// Whether the move from a node to a neighbour may be made.
    fn is_free(&self, node: u32, neighbour: u32) -> bool
        ensures { (k : ℕ) → node < (shape self.now).size → k < 6
            → (shape self.now).next node k ≡ Some neighbour
            → result ≡ (shape self.now).free node neighbour };
}
