//! A flood over the grid of whole units: the least cost of a request, step by step from the definition of a lawful step. It is
//! for comparison with small panels.
#![tactic(auto)]

mod ground;
mod labels;
mod node;
mod open;
mod spread;
mod steps;
mod table;

pub use ground::Ground;
pub use spread::{FloodError, flood};
