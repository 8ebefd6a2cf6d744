//! The flood on the panel of the sample job.
#![tactic(auto)]

#[cfg(test)]
mod sample;
