// What waits in the frontier of a search.
ghost use Rattle.frontier.specs.Entries.{cheaper, cheaper_ranks};

use costs::Amount;
use queue::Ranked;

/// A node that waits in the frontier, and the amount for which it can be reached.
#[derive(Clone, Copy, Debug, PartialEq, Eq)]
pub struct Entry<C> {
    pub amount: C,
    pub node: u32,
}

impl<C: Amount> Ranked for Entry<C> {
    ghost below = { cheaper C.Amount.means C.Amount.sums };

    ghost order = { cheaper_ranks C.Amount.means C.Amount.sums C.Amount.laws };

    // no `Ord`: entries of one amount at different nodes tie, and ties would have to be `==`
    fn less(&self, other: &Entry<C>) -> bool {
        !other.amount.at_most(&self.amount)
    }
}
