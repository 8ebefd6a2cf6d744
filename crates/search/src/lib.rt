//! The search for a least-cost path: the lines of a request and the nodes where they cross.
#![tactic(auto)]

mod drawing;
mod graph;
mod grid;
mod lattice;
mod least;
mod lines;
mod locate;
mod moves;
mod nodes;
mod request;

pub use geometry::Axis;
pub use grid::Grid;
pub use lattice::Lattice;
pub use least::least_cost;
pub use lines::{LINES, Undrawn, draw_lines};
pub use nodes::{Crossing, NoWay, Way};
pub use request::{Extent, Refusal, Request};
