//! Tests of boxes, zones, gaps, nets and classes.
#![tactic(auto)]

#[cfg(test)]
mod boxes;
#[cfg(test)]
mod measures;
#[cfg(test)]
mod ways;
#[cfg(test)]
mod zones;
