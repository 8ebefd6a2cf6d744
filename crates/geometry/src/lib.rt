//! What lies on a panel: points, rectangles, pieces and the zones round them.
#![tactic(auto)]

mod axis;
mod between;
mod cases;
mod class;
mod gaps;
mod laws;
mod measures;
mod net;
mod piece;
mod point;
mod question;
mod rect;
mod size;
mod zone;

pub use axis::Axis;
pub use cases::worked_zones_hold;
pub use class::Class;
pub use gaps::apart;
pub use laws::{keep_clear, room_of};
pub use measures::Measures;
pub use net::different_nets;
pub use piece::{Mark, Piece};
pub use point::Point;
pub use question::Question;
pub use rect::{Rect, Span};
pub use size::{LAYERS, SIDE, Size};
pub use zone::{in_way, zone_axis, zone_crosses, zone_meets};
