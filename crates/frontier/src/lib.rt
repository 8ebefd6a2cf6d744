//! The search for a route of least cost through a graph, from one node outwards.
#![tactic(auto)]

mod entry;
mod find;
mod graph;
mod look;
mod note;
mod search;
mod spread;
mod way;

pub use entry::Entry;
pub use find::{Unfit, find_least};
pub use graph::Graph;
pub use note::Note;
pub use way::{before, way_len, write_way};
