// What a search notes of a node.

/// A node is unseen, or waits with the best amount so far and the node before it, or is settled with them.
#[derive(Clone, Copy, Debug, PartialEq, Eq)]
pub enum Note<C> {
    Unseen,
    Waiting(C, u32),
    Settled(C, u32),
}
