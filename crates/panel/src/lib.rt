//! A panel, from the sheet that it is opened from to the calls on it.
#![tactic(auto)]

mod calls;
mod panel;
mod place;
mod refusal;
mod run;
mod settings;
mod sheet;

pub use calls::{Answer, Call, Done, Placement};
pub use panel::Panel;
pub use refusal::{Level, Refusal, SheetRefusal, Shown};
pub use run::{promise_over_runs, run_calls};
pub use sheet::Sheet;
