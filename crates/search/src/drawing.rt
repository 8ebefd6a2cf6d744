// The grid of a request, drawn into lent lists.
ghost use Rattle.std.specs.Prelude.{◌≡◌, T, false, length};
ghost use Rattle.search.specs.Drawing.{short_lists};
ghost use Rattle.search.specs.Told.{ToldLattice, ToldAxis, is_early};
ghost use Rattle.search.specs.Requests.{proper, sized, extent, request_lines};

use crate::lattice::Lattice;
use crate::lines::{are_short, draw_lines};
use crate::request::{Extent, Refusal, Request};
use geometry::{Axis, LAYERS, SIDE};
use registers::Pieces;

impl Request {
    /// Whether the sizes of the panel are in range.
    fn is_sized(&self) -> bool
        ensures { result ≡ sized self.now }
    {
        self.size.is_within(SIDE, LAYERS)
    }

    /// Whether the sizes are in range and the terminals on the panel.
    pub fn is_proper(&self) -> bool
        ensures { result ≡ proper self.now }
    {
        self.is_sized() && self.size.has(&self.first) && self.size.has(&self.second)
    }

    /// What the request asks along an axis.
    fn extent(&self, axis: Axis) -> Extent
        ensures { result ≡ extent self.now axis }
    {
        let size = match axis {
            Axis::X => self.size.width,
            Axis::Y => self.size.height,
        };
        Extent {
            axis,
            size,
            class: self.class,
            net: self.net,
            first: self.first.along(axis),
            second: self.second.along(axis),
        }
    }
}

/// Draws the lines of a request along an axis into the front of `lines`, and answers how many they are.
fn draw_axis<P: Pieces>(
    request: &Request,
    axis: Axis,
    register: &P,
    coordinates: &mut [u32],
    lines: &mut [u32],
) -> Result<u32, Refusal>
    requires { short_lists (length (P.pieces register.now)) (length coordinates.old) (length lines.old) ≡ false }
    ensures { ToldAxis (request_lines request.now axis (P.pieces register.now)) lines.new result }
{
    let drawn = draw_lines(&request.extent(axis), register, coordinates, lines);
    let count = drawn.map_err(|_| Refusal::TooManyLines)?;
    Ok(count as u32)
}

/// Draws the lines of a request into the fronts of `xs` and `ys`, by way of `coordinates`, and answers how they cross.
pub(crate) fn draw_lattice<P: Pieces>(
    request: &Request,
    register: &P,
    coordinates: &mut [u32],
    xs: &mut [u32],
    ys: &mut [u32],
) -> Result<Lattice, Refusal>
    ensures answer { ToldLattice request.now (P.pieces register.now) (length coordinates.old) (length xs.old) (length ys.old) xs.new ys.new result }
    ensures unchanged { T (is_early result) → (coordinates.new ≡ coordinates.old) × (xs.new ≡ xs.old) × (ys.new ≡ ys.old) }
{
    if !request.is_proper() {
        return Err(Refusal::Improper);
    }
    let m = register.count();
    if are_short(m, coordinates.len(), xs.len().min(ys.len())) {
        return Err(Refusal::ShortLists(4 * m + 2));
    }
    let columns = draw_axis(request, Axis::X, register, coordinates, xs)?;
    let rows = draw_axis(request, Axis::Y, register, coordinates, ys)?;
    Ok(Lattice {
        columns,
        rows,
        layers: request.size.layers,
    })
}
