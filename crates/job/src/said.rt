// What a line of a job that is answered comes to.
use crate::refused::Refused;
use panel::Call;

/// What a line comes to, a call to be made or a refusal, and its number, counted from 1.
#[derive(Clone, Copy, Debug, PartialEq, Eq)]
pub struct Said {
    pub line: usize,
    pub reply: Result<Call, Refused>,
}
