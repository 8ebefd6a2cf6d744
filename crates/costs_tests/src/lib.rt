//! Price rows at the ends of their ranges and one past them, and amounts at a few values.
#![tactic(auto)]

#[cfg(test)]
mod amounts;
#[cfg(test)]
mod rows;
