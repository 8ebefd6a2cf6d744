// What a search works on.
ghost use Rattle.std.specs.Prelude.{◌≡◌, ◌+◌, ◌*◌, ◌≤◌, length};
ghost use Rattle.queue.specs.Waiting.{room};

use crate::entry::Entry;
use crate::graph::Graph;
use crate::note::Note;
use costs::Amount;
use queue::Queue;

/// A graph, a note of each of its nodes, and the queue of those that wait, with room for six entries for each node and one.
// Each reference has a lifetime of its own, and the queue is a reference: a struct that holds the queue itself beside the lent
// notes loses what was written to them.
#[derive(Drop)]
pub(crate) struct Search<'g, 'n, 'q, 'b, C: Amount, G: Graph<C>> {
    pub graph: &'g G,
    pub notes: &'n mut [Note<C>],
    pub queue: &'q mut Queue<'b, Entry<C>>,
    ghost long: { length notes.now ≡ (G.shape graph.now).size },
    ghost slots: { 6 * (G.shape graph.now).size + 1 ≤ room queue.now },
}
