//! A priority queue over a lent slice, and the distinct numbers that come out of one.
#![tactic(auto)]

mod distinct;
mod drain;
mod front;
mod heap;
mod order;
mod sift;

pub use distinct::{DistinctRefusal, drain_distinct, sorted_distinct};
pub use heap::{Full, Queue};
pub use order::Ranked;
