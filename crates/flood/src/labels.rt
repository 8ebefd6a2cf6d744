// Labels: for how much each point is known to be reached.
ghost use Rattle.std.specs.Prelude.{◌<◌, length};
ghost use Rattle.flood.specs.Places.{SameSteps};

use crate::node::Node;
use costs::{Amount, CostKind};
use geometry::Axis;

/// Betters the label of one place by a step from another, and answers whether it did.
fn better<C: Amount>(nodes: &mut [Node<C>], from: usize, to: usize, price: C) -> bool
    ensures { SameSteps nodes.old nodes.new }
{
    let Some(here) = nodes.get(from).and_then(|node| node.label) else {
        return false;
    };
    let amount = here.sum(price);
    let Some(target) = nodes.get(to) else {
        return false;
    };
    if target.label.is_some_and(|old| old.at_most(&amount)) {
        return false;
    }
    nodes[to] = Node {
        steps: target.steps,
        label: Some(amount),
    };
    true
}

/// Betters the labels of two places by a step between them, either way, and answers whether one did.
fn better_both<C: Amount>(nodes: &mut [Node<C>], i: usize, j: usize, price: C) -> bool
    ensures { SameSteps nodes.old nodes.new }
{
    let ahead = better(nodes, i, j, price);
    let back = better(nodes, j, i, price);
    ahead || back
}

/// How labels are bettered: by a kind of cost, and by how far apart the places of neighbouring points are, along y and from
/// layer to layer.
#[derive(Clone, Copy, Debug, PartialEq, Eq)]
pub(crate) struct Spread<K> {
    pub kind: K,
    pub row: usize,
    pub plane: usize,
}

impl<K: CostKind> Spread<K> {
    /// Betters labels by the lawful steps from a place to the next ones and back, and answers whether one did.
    // written out in the sweeps, which come here for each place: called, it takes a quarter more instructions
    #[inline(always)]
    pub(crate) fn better_round(&self, nodes: &mut [Node<K::Amount>], i: usize) -> bool
        requires { i < length nodes.old }
        ensures { SameSteps nodes.old nodes.new }
    {
        let steps = nodes[i].steps;
        let kind = &self.kind;
        let right = steps.right
            && better_both(nodes, i, i.wrapping_add(1), kind.step(Axis::X, steps.layer));
        let up = steps.up
            && better_both(
                nodes,
                i,
                i.wrapping_add(self.row),
                kind.step(Axis::Y, steps.layer),
            );
        let above = steps.above
            && better_both(nodes, i, i.wrapping_add(self.plane), kind.via(steps.layer));
        right || up || above
    }
}
