//! Jobs as text: what their lines say, and what is answered.
#![tactic(auto)]

mod cases;
mod forms;
mod lines;
mod number;
mod reader;
mod refused;
mod run;
mod said;
mod scan;
mod script;
mod sentences;
mod setup;
mod steps;
mod text;
mod words;

pub use cases::worked_jobs_hold;
pub use forms::{ClassLine, CostChoice, LayerLine, PanelLine, RegisterChoice, Verb};
pub use lines::LineReader;
pub use number::parse_number;
pub use reader::{Part, Unreadable, WordReader};
pub use refused::Refused;
pub use run::run_job;
pub use said::Said;
pub use script::{Script, read_job};
pub use setup::{Setup, Stage};
