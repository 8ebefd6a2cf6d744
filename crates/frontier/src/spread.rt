// The search spreads from its start, the least entry first.
ghost use Rattle.std.specs.Prelude.{◌≡◌, ℕ, ◌+◌, ◌*◌, ◌<◌, ◌≤◌, [], length, MatchOption, slice_index_or};
ghost use Rattle.queue.specs.Waiting.{waiting, Ordered};
ghost use Rattle.frontier.specs.declared.note.Note.TheVariants.{Unseen};
ghost use Rattle.frontier.specs.Entries.{cheaper};
ghost use Rattle.frontier.specs.Held.{Reached, SameWork};
ghost use Rattle.frontier.specs.Routes.{HasNoRoute, search_from};

use crate::entry::Entry;
use crate::graph::Graph;
use crate::note::Note;
use crate::search::Search;
use costs::Amount;
use queue::Queue;

impl<C: Amount, G: Graph<C>> Search<'_, '_, '_, '_, C, G> {
    /// Settles the nodes in the order of their amounts until the target is settled or no entry waits,
    /// and answers the target's amount.
    pub(crate) fn spread(&mut self, from: u32, to: u32) -> Option<C>
        requires blank { (k : ℕ) → slice_index_or self.old.notes.now k Unseen ≡ Unseen }
        requires start { from < (G.shape self.old.graph.now).size }
        requires empty { waiting self.old.queue.now ≡ [] }
        requires order { Ordered (cheaper C.means C.sums) self.old.queue.now }
        ensures answer { MatchOption result
            (HasNoRoute (search_from C.sums (G.shape self.old.graph.now) (G.price C.sums C.means self.old.graph.now) from) to)
            (λ a. Reached (search_from C.sums (G.shape self.old.graph.now) (G.price C.sums C.means self.old.graph.now) from)
            C.means self.new.notes.now to (C.means a)) }
        ensures same { SameWork self.old self.new }
    {
        let none = C::zero();
        self.notes[from as usize] = Note::Waiting(none, from);
        let start = Entry {
            amount: none,
            node: from,
        };
        self.queue.put(start).unwrap();
        loop {
            // by a rule of the project, here it is answered that there is no route
            let Some(entry) = self.queue.take() else {
                return None;
            };
            let note = self.notes[entry.node as usize];
            if let Note::Waiting(_best, before) = note {
                self.notes[entry.node as usize] = Note::Settled(entry.amount, before);
                if entry.node == to {
                    return Some(entry.amount);
                }
                self.look_round(entry.node, entry.amount);
            }
        }
    }
}

/// Searches from a node to another by a note of each node, and answers the least cost of a route.
// The notes are all that were lent here: a struct that is lent a part of a slice loses what it wrote there.
pub(crate) fn run_search<C: Amount, G: Graph<C>>(
    graph: &G,
    from: u32,
    to: u32,
    notes: &mut [Note<C>],
    frontier: &mut [Entry<C>],
) -> Option<C>
    requires long { length notes.old ≡ (G.shape graph.now).size }
    requires start { from < (G.shape graph.now).size }
    requires slots { 6 * (G.shape graph.now).size + 1 ≤ length frontier.old }
    ensures { MatchOption result
        (HasNoRoute (search_from C.sums (G.shape graph.now) (G.price C.sums C.means graph.now) from) to)
        (λ a. Reached (search_from C.sums (G.shape graph.now) (G.price C.sums C.means graph.now) from)
        C.means notes.new to (C.means a)) }
{
    notes.fill(Note::Unseen);
    let mut queue = Queue::new(frontier);
    let mut search = Search {
        graph,
        notes,
        queue: &mut queue,
    };
    search.spread(from, to)
}
