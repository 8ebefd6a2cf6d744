// The lines of a request along one axis, drawn from its terminals and the zones of the pieces that stand.
ghost use Rattle.std.specs.Prelude.{◌≡◌, ◌+◌, ◌*◌, ◌≤◌, T, [], ◌∷◌, length};
ghost use Rattle.std.specs.Option.{option_to_list};
ghost use Rattle.routes.specs.Lines.{on_panel};
ghost use Rattle.search.specs.Axes.{extent_coordinates, extent_lines};
ghost use Rattle.search.specs.Drawing.{HasRoom, Puts, zone_borders, piece_borders, all_borders};
ghost use Rattle.search.specs.Drawing.{is_short, short_lists, ToldDrawn};

use crate::request::Extent;
use geometry::{Piece, Span, different_nets, zone_axis};
use queue::{Queue, drain_distinct};
use registers::Pieces;

/// A border of a zone, if it lies on the panel.
fn on_panel(border: i64, far: u32) -> Option<u32>
    ensures { option_to_list result ≡ on_panel far (border ∷ []) }
{
    u32::try_from(border).ok().filter(|x| *x <= far)
}

/// Puts a border of a zone into the queue if it lies on the panel.
fn put_border(queue: &mut Queue<'_, u32>, border: i64, far: u32)
    requires { HasRoom 1 queue.old }
    ensures { Puts (on_panel far (border ∷ [])) queue.old queue.new }
{
    if let Some(x) = on_panel(border, far) {
        queue.put(x).unwrap();
    }
}

/// Puts both borders of a zone along one axis into the queue, as far as they lie on the panel.
fn put_zone(queue: &mut Queue<'_, u32>, span: &Span, out: u32, far: u32)
    requires { HasRoom 2 queue.old }
    ensures { Puts (zone_borders far out span.now) queue.old queue.new }
{
    let (low, high) = zone_axis(span, out);
    put_border(queue, low, far);
    put_border(queue, high, far);
}

/// Puts the borders of the wire zone and of the via zone of a piece into the queue, as far as they lie on the panel.
fn put_piece(queue: &mut Queue<'_, u32>, extent: &Extent, piece: &Piece)
    requires { HasRoom 4 queue.old }
    ensures { Puts (piece_borders extent.now piece.now) queue.old queue.new }
{
    let class = extent.class;
    let span = piece.rect.along(extent.axis);
    let space = class.space.max(piece.space) as u32;
    put_zone(queue, &span, class.half as u32 + space, extent.size);
    put_zone(queue, &span, class.pad as u32 + space, extent.size);
}

/// Puts the borders of the zones of all pieces of a different net into the queue, as far as they lie on the panel.
fn put_pieces<P: Pieces>(queue: &mut Queue<'_, u32>, extent: &Extent, register: &P)
    requires { HasRoom (4 * length (P.pieces register.now)) queue.old }
    ensures { Puts (all_borders extent.now (P.pieces register.now)) queue.old queue.new }
{
    // by number: of a register only the count and the k-th piece are asked
    for k in 0..register.count() {
        let piece = register.piece(k).unwrap();
        if different_nets(piece.net, extent.net) {
            put_piece(queue, extent, &piece);
        }
    }
}

/// Puts the coordinates of the lines of a request along one axis into the queue.
fn put_coordinates<P: Pieces>(queue: &mut Queue<'_, u32>, extent: &Extent, register: &P)
    requires { HasRoom (4 * length (P.pieces register.now) + 2) queue.old }
    ensures { Puts (extent_coordinates extent.now (P.pieces register.now)) queue.old queue.new }
{
    queue.put(extent.first).unwrap();
    queue.put(extent.second).unwrap();
    put_pieces(queue, extent, register);
}

/// The most lines along an axis.
pub const LINES: usize = 1024;

/// Why no lines are drawn: a list is too short, or there are too many lines.
#[derive(Clone, Copy, Debug, PartialEq, Eq)]
pub enum Undrawn {
    ShortLists,
    TooManyLines,
}

/// Whether the list of coordinates or that of lines is too short, where `m` pieces stand.
pub(crate) fn are_short(m: usize, coordinates: usize, lines: usize) -> bool
    requires { m ≤ 4096 }
    ensures { result ≡ short_lists m coordinates lines }
{
    coordinates < 4 * m + 2 || lines < LINES
}

/// Writes the lines of a request along one axis to the front of `lines`, ascending and each once, by way of `coordinates`,
/// and answers how many they are.
pub fn draw_lines<P: Pieces>(
    extent: &Extent,
    register: &P,
    coordinates: &mut [u32],
    lines: &mut [u32],
) -> Result<usize, Undrawn>
    ensures short { is_short result ≡ short_lists (length (P.pieces register.now)) (length coordinates.old) (length lines.old) }
    ensures lines { ToldDrawn (extent_lines extent.now (P.pieces register.now)) lines.new result }
    ensures unchanged { T (is_short result) → (coordinates.new ≡ coordinates.old) × (lines.new ≡ lines.old) }
{
    if are_short(register.count(), coordinates.len(), lines.len()) {
        return Err(Undrawn::ShortLists);
    }
    let mut queue = Queue::new(coordinates);
    put_coordinates(&mut queue, extent, register);
    drain_distinct(&mut queue, LINES, lines).ok_or(Undrawn::TooManyLines)
}
