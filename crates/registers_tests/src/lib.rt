//! Tests of registers, the same for each kind of register.
#![tactic(auto)]

#[cfg(test)]
mod plain;
#[cfg(test)]
mod script;
#[cfg(test)]
mod spread;
#[cfg(test)]
mod strip;
