// Price lists: one row of prices for each of the eight layers.
ghost use Rattle.std.specs.Prelude.{◌≡◌};
ghost use Rattle.costs.specs.Rows.{along, blank_list, row_at, row_of, row_answer, rows_after};

use geometry::Axis;

/// The prices of a layer: along x, along y, and of the via to the next layer.
#[derive(Clone, Copy, Debug, PartialEq, Eq, Default)]
pub struct Row {
    pub u: u16,
    pub v: u16,
    pub t: u32,
}

impl Row {
    /// The price of a unit step along an axis.
    pub fn along(&self, axis: Axis) -> u16
        ensures { result ≡ along axis self.now }
    {
        match axis {
            Axis::X => self.u,
            Axis::Y => self.v,
        }
    }
}

/// One row for each of the layers 1 to 8.
#[derive(Clone, Copy, Debug, PartialEq, Eq, Default)]
pub struct PriceList {
    rows: [Row; 8],
}

/// Why a row is not set: there is no such layer, or a price is beyond its range.
#[derive(Clone, Copy, Debug, PartialEq, Eq)]
pub enum RowRefusal {
    Layer,
    Price,
}

/// Writes the three prices of one row, which the list lends.
// By a rule of the project one row is lent to a function, so u, v and t stay parameters, here and in `set`.
fn set_row(row: &mut Row, u: u16, v: u16, t: u32)
    ensures { row.new ≡ record { u = u; v = v; t = t } }
{
    row.u = u;
    row.v = v;
    row.t = t;
}

impl PriceList {
    /// A list in which every price is zero.
    pub fn new() -> PriceList
        ensures { result ≡ blank_list }
    {
        PriceList::default()
    }

    /// Replaces the row of a layer, or refuses and leaves the list as it is.
    pub fn set(&mut self, layer: u32, u: u32, v: u32, t: u32) -> Result<(), RowRefusal>
        ensures answer { result ≡ row_answer layer u v t }
        ensures rows { self.new ≡ rows_after self.old layer u v t }
    {
        if !(1..=8).contains(&layer) {
            return Err(RowRefusal::Layer);
        }
        let (Ok(u), Ok(v)) = (u16::try_from(u), u16::try_from(v)) else {
            return Err(RowRefusal::Price);
        };
        if 1_000_000 < t {
            return Err(RowRefusal::Price);
        }
        set_row(&mut self.rows[layer as usize - 1], u, v, t);
        Ok(())
    }

    /// The row of a layer, absent off the layers 1 to 8.
    pub fn row(&self, layer: u32) -> Option<Row>
        ensures { result ≡ row_at self.now layer }
    {
        let place = layer.checked_sub(1)?;
        self.rows.get(place as usize).copied()
    }

    /// The row of a layer, without prices off the layers 1 to 8.
    pub(crate) fn row_or_blank(&self, layer: u8) -> Row
        ensures { result ≡ row_of self.now layer }
    {
        self.row(layer as u32).unwrap_or_default()
    }
}
