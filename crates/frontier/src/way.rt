// The way that the notes of a search lead back.
ghost use Rattle.std.specs.Prelude.{◌≡◌, ℕ, ◌+◌, List, ◌∷◌, reverse, length, None};
ghost use Rattle.frontier.specs.Ways.{Leads, before_of, Counted, Written};

use crate::note::Note;

/// The node before a settled node.
pub fn before<C: Copy>(notes: &[Note<C>], node: u32) -> Option<u32>
    ensures { result ≡ before_of notes.now node }
{
    match notes.get(node as usize) {
        Some(Note::Settled(_amount, before)) => Some(*before),
        _ => None,
    }
}

/// How many nodes the way has that the notes lead back; absent if they do not lead to the start.
pub fn way_len<C: Copy>(notes: &[Note<C>], from: u32, to: u32) -> Option<usize>
    ensures { Counted notes.now from to result }
{
    let mut node = to;
    // a way that is the start alone wants no note
    for count in 1..=notes.len().max(1) {
        if node == from {
            return Some(count);
        }
        node = before(notes, node)?;
    }
    None
}

/// Writes the nodes that the notes lead back from a node, the last of them first.
// Forwards, and then reversed: nothing is known of what is written through `iter_mut().rev()`.
fn fill_back<C: Copy>(notes: &[Note<C>], to: u32, way: &mut [u32])
    ensures { (from : ℕ) (back : List ℕ) → Leads notes.now from to back
        → length way.old ≡ length back + 1 → way.new ≡ reverse (to ∷ back) }
{
    let mut node = to;
    for slot in way.iter_mut() {
        *slot = node;
        node = before(notes, node).unwrap_or(node);
    }
    way.reverse();
}

/// Writes the nodes of the way, from the start to the target, to the front of a list, and answers how
/// many they are; absent, with nothing written, if there is no way or it does not fit.
pub fn write_way<C: Copy>(notes: &[Note<C>], from: u32, to: u32, way: &mut [u32]) -> Option<usize>
    ensures written { Written notes.now from to way.old way.new result }
    ensures unchanged { result ≡ None → way.new ≡ way.old }
{
    let count = way_len(notes, from, to)?;
    if way.len() < count {
        return None;
    }
    fill_back(notes, to, &mut way[..count]);
    Some(count)
}
