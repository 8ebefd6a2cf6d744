// The neighbours of a node that was settled are looked at.
ghost use Rattle.std.specs.Prelude.{◌≡◌, ◌+◌, ◌*◌, ◌<◌, ◌≤◌};
ghost use Rattle.queue.specs.Waiting.{waiting, size, Keeps};
ghost use Rattle.frontier.specs.Entries.{cheaper};
ghost use Rattle.frontier.specs.Held.{mark, worth, LookedAt, LookedRound, Stays, SameWork};

use crate::entry::Entry;
use crate::graph::Graph;
use crate::note::Note;
use crate::search::Search;
use costs::Amount;

/// Whether an amount is worth noting at a node of that note.
fn better<C: Amount>(note: Note<C>, sum: C) -> bool
    ensures { result ≡ worth C.sums (mark C.means note) (C.means sum) }
{
    match note {
        Note::Unseen => true,
        Note::Waiting(best, _before) => !best.at_most(&sum),
        Note::Settled(_best, _before) => false,
    }
}

impl<C: Amount, G: Graph<C>> Search<'_, '_, '_, '_, C, G> {
    /// Looks at the k-th neighbour of a settled node: where the move to it gives a better amount and may
    /// be made, notes that and puts in an entry.
    // `node` is one bound, of one number: no name for it would say more. `order` is no field of `same`: it wants the sums
    // and meanings of amounts, which `same` does without.
    fn look_at(&mut self, node: u32, amount: C, k: u32)
        requires node { node < (G.shape self.old.graph.now).size }
        requires way { k < 6 }
        requires few { size self.old.queue.now ≤ 6 * (G.shape self.old.graph.now).size }
        ensures looking { LookedAt
            C.sums C.means (G.shape self.old.graph.now) (G.price C.sums C.means self.old.graph.now) node (C.means amount) k
            self.old.notes.now (waiting self.old.queue.now) self.new.notes.now (waiting self.new.queue.now) }
        ensures stays { Stays (G.shape self.old.graph.now).size C.means
            self.old.notes.now self.new.notes.now (waiting self.old.queue.now) (waiting self.new.queue.now) 1 }
        ensures order { Keeps (cheaper C.means C.sums) self.old.queue.now self.new.queue.now }
        ensures same { SameWork self.old self.new }
    {
        let Some(step) = self.graph.toward(node, k) else {
            return;
        };
        // a pattern for both at once loses what is known of the price
        let (neighbour, price) = step;
        let sum = amount.sum(price);
        if !better(self.notes[neighbour as usize], sum) {
            return;
        }
        if !self.graph.is_free(node, neighbour) {
            return;
        }
        self.notes[neighbour as usize] = Note::Waiting(sum, node);
        let entry = Entry {
            amount: sum,
            node: neighbour,
        };
        self.queue.put(entry).unwrap();
    }

    /// Looks at all neighbours of a settled node.
    pub(crate) fn look_round(&mut self, node: u32, amount: C)
        requires node { node < (G.shape self.old.graph.now).size }
        requires few { size self.old.queue.now + 5 ≤ 6 * (G.shape self.old.graph.now).size }
        ensures holds { LookedRound
            C.sums C.means (G.shape self.old.graph.now) (G.price C.sums C.means self.old.graph.now) node (C.means amount)
            self.old.notes.now (waiting self.old.queue.now) self.new.notes.now (waiting self.new.queue.now) }
        ensures stays { Stays (G.shape self.old.graph.now).size C.means
            self.old.notes.now self.new.notes.now (waiting self.old.queue.now) (waiting self.new.queue.now) 6 }
        ensures order { Keeps (cheaper C.means C.sums) self.old.queue.now self.new.queue.now }
        ensures same { SameWork self.old self.new }
    {
        // a number of turns: k is only handed on
        for k in 0..6 {
            self.look_at(node, amount, k);
        }
    }
}
