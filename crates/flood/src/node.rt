// The nodes of a flood: the points of the unit grid, with what is known of each.

/// The layer of a point, and whether the steps from it to the next along x, along y and to the layer above are lawful.
// Three answers of yes or no, with no value beside them.
#[derive(Clone, Copy, Debug, PartialEq, Eq)]
pub(crate) struct Steps {
    pub layer: u8,
    pub right: bool,
    pub up: bool,
    pub above: bool,
}

/// A point by the steps from it, and for how much it is known to be reached.
#[derive(Clone, Copy, Debug, PartialEq, Eq)]
pub(crate) struct Node<C> {
    pub steps: Steps,
    pub label: Option<C>,
}
