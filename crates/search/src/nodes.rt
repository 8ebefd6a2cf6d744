// The nodes of a request as numbers: crossings of lines, on each layer.
ghost use Rattle.std.specs.Prelude.{◌≡◌, ◌<◌, IfSome, Some};
ghost use Rattle.std.specs.Result.{result_ok};
ghost use Rattle.search.specs.Nodes.{way_of, node_total, node_known, crossing_known, next_of, ahead, beside as neighbour};

use crate::lattice::Lattice;

/// A crossing of lines on a layer, each counted from 0.
#[derive(Clone, Copy, Debug, PartialEq, Eq)]
pub struct Crossing {
    pub column: u32,
    pub row: u32,
    pub level: u32,
}

/// The directions to the six neighbours of a crossing.
#[derive(Clone, Copy, Debug, PartialEq, Eq)]
pub enum Way {
    Left,
    Right,
    Down,
    Up,
    Below,
    Above,
}

/// No direction: there are six.
#[derive(Clone, Copy, Debug, PartialEq, Eq)]
pub struct NoWay;

impl TryFrom<u32> for Way {
    type Error = NoWay;

    ghost try_from_gives = { λ k r. result_ok r ≡ way_of k };

    /// The directions, counted from 0.
    fn try_from(k: u32) -> Result<Way, NoWay> {
        match k {
            0 => Ok(Way::Left),
            1 => Ok(Way::Right),
            2 => Ok(Way::Down),
            3 => Ok(Way::Up),
            4 => Ok(Way::Below),
            5 => Ok(Way::Above),
            _ => Err(NoWay),
        }
    }
}

impl Lattice {
    /// How many nodes there are.
    pub fn size(&self) -> u32
        ensures { result ≡ node_total self.now }
    {
        self.columns * self.rows * self.layers
    }

    /// The number of a crossing, if there is such a crossing.
    pub fn node(&self, c: &Crossing) -> Option<u32>
        ensures answer { result ≡ node_known self.now c.now }
        ensures back { IfSome result (λ n. crossing_known self.now n ≡ Some c.now) }
    {
        // `then_some` would work the number out before the test, and `then` with its closure is no plainer
        if c.column < self.columns && c.row < self.rows && c.level < self.layers {
            Some((c.level * self.rows + c.row) * self.columns + c.column)
        } else {
            None
        }
    }

    /// The crossing of a number, if there is such a node.
    pub fn crossing(&self, node: u32) -> Option<Crossing>
        ensures answer { result ≡ crossing_known self.now node }
        ensures back { IfSome result (λ c. node_known self.now c ≡ Some node) }
    {
        if node >= self.size() {
            return None;
        }
        let line = node / self.columns;
        Some(Crossing {
            column: node % self.columns,
            row: line % self.rows,
            level: line / self.rows,
        })
    }

    /// The neighbour of a node in a direction, counted from 0, if it has one.
    // by number: any may be asked for, and there are six
    pub fn next(&self, node: u32, k: u32) -> Option<u32>
        ensures { node < node_total self.now → result ≡ next_of self.now node k }
    {
        self.step(node, Way::try_from(k).ok()?)
    }

    /// The neighbour of a node in a direction, if it has one.
    fn step(&self, node: u32, way: Way) -> Option<u32>
        ensures { node < node_total self.now → result ≡ ahead self.now node (Some way) }
    {
        let c = self.crossing(node)?;
        let d = self.beside(way, &c)?;
        self.node(&d)
    }

    /// The neighbour of a crossing in a direction, if it has one.
    fn beside(&self, way: Way, c: &Crossing) -> Option<Crossing>
        ensures { result ≡ neighbour self.now way c.now }
    {
        let mut next = *c;
        // one arm for each way: a coordinate that is chosen by a value would be matched on twice
        match way {
            Way::Left if c.column > 0 => next.column = c.column - 1,
            Way::Right if c.column < self.columns.saturating_sub(1) => next.column = c.column + 1,
            Way::Down if c.row > 0 => next.row = c.row - 1,
            Way::Up if c.row < self.rows.saturating_sub(1) => next.row = c.row + 1,
            Way::Below if c.level > 0 => next.level = c.level - 1,
            Way::Above if c.level < self.layers.saturating_sub(1) => next.level = c.level + 1,
            _ => return None,
        }
        Some(next)
    }
}
