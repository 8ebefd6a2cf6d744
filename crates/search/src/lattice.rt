// How many crossings of lines there are.
ghost use Rattle.std.specs.Prelude.{◌≤◌};

// Columns and rows are counted here beside the lists of lines, so that nodes are numbered without the lists.
/// The crossings of up to 1,024 columns and 1,024 rows on up to 8 layers.
#[derive(Clone, Copy, Debug, PartialEq, Eq)]
pub struct Lattice {
    pub columns: u32,
    pub rows: u32,
    pub layers: u32,
    ghost narrow: { columns ≤ 1024 },
    ghost low: { rows ≤ 1024 },
    ghost flat: { layers ≤ 8 },
}
