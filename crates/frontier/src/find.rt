// The search for a route of least cost.
ghost use Rattle.std.specs.Prelude.{◌≡◌, true, length, is_err};
ghost use Rattle.frontier.specs.Findings.{unfit, Answer, Leaves};
ghost use Rattle.frontier.specs.Routes.{search_from};

use crate::entry::Entry;
use crate::graph::Graph;
use crate::note::Note;
use crate::spread::run_search;
use costs::Amount;

/// The refusal of a search that was not given what it needs.
#[derive(Clone, Copy, Debug, PartialEq, Eq)]
pub struct Unfit;

/// Whether a terminal is no node of so many, or the lists of notes and of entries are too short.
fn is_unfit(size: u32, from: u32, to: u32, notes: usize, entries: usize) -> bool
    ensures { result ≡ unfit size from to notes entries }
{
    let size = size as usize;
    from as usize >= size || to as usize >= size || notes < size || entries < 6 * size + 1
}

/// The least cost of a route from one node to another, if there is a route. It is refused, with nothing written, exactly if
/// a terminal is no node, or there are fewer notes than nodes, or fewer places for entries than six for
/// each node and one. Where the target is reached, the notes lead back from it.
// The terminals are two nodes, as every caller has them: a struct would be made only to be taken apart.
pub fn find_least<C: Amount, G: Graph<C>>(
    graph: &G,
    from: u32,
    to: u32,
    notes: &mut [Note<C>],
    frontier: &mut [Entry<C>],
) -> Result<Option<C>, Unfit>
    ensures refused { is_err result
        ≡ unfit (G.shape graph.now).size from to (length notes.old) (length frontier.old) }
    ensures answer { Answer
        (search_from C.sums (G.shape graph.now) (G.price C.sums C.means graph.now) from) C.means to result }
    ensures traced { Leaves
        (search_from C.sums (G.shape graph.now) (G.price C.sums C.means graph.now) from)
        C.means to notes.new result }
    ensures unchanged { is_err result ≡ true
        → (notes.new ≡ notes.old) × (frontier.new ≡ frontier.old) }
{
    let size = graph.size();
    if is_unfit(size, from, to, notes.len(), frontier.len()) {
        return Err(Unfit);
    }
    let own = &mut notes[..size as usize];
    Ok(run_search(graph, from, to, own, frontier))
}
