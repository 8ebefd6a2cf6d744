//! Registers: where the standing pieces are kept, in order of arrival.
#![tactic(auto)]

mod chain;
mod chains;
mod pieces;
mod plain;
mod register;
mod slots;
mod strip;
mod strips;

pub use pieces::Pieces;
pub use plain::PlainRegister;
pub use register::{Full, Register};
pub use strip::StripRegister;
