// How the answers of a job are written.
ghost use Rattle.std.specs.Prelude.{◌≡◌, IfOk, Some, string_bytes};
ghost use Rattle.job.specs.Written.{level_word, outcome, outcome_text, answers_left, text_of};

use crate::refused::Refused;
use crate::said::Said;
use panel::{Answer, Call, Done, Level, Shown};
use std::alloc::{AllocError, Global};
use std::fmt;
use std::slice::Iter;

/// What a line of a job comes to once its call is answered: what the call did, or why the line or its call is refused.
#[derive(Clone, Copy, Debug, PartialEq, Eq)]
pub(crate) struct Outcome {
    line: usize,
    outcome: Result<Done, Refused>,
}

// The word of a level. It is printed here alone, so its type, which is panel's, has no `Display`.
fn level_word(level: Level) -> &'static str
    ensures { result.now ≡ level_word level }
{
    match level {
        Level::Job => "job",
        Level::Sheet => "sheet",
        Level::Panel => "panel",
    }
}

impl fmt::Display for Outcome {
    ghost output = { λ o. Some (outcome_text o.line o.outcome) };

    fn fmt<W: fmt::Write>(&self, f: &mut fmt::Formatter<W>) -> fmt::Result {
        match self.outcome {
            Ok(Done::Placed(job)) => writeln!(f, "ok {job}"),
            Ok(Done::Lifted(count)) => writeln!(f, "ok {count}"),
            Err(e) => {
                let Shown {
                    number,
                    level,
                    returned,
                } = e.shown();
                let line = self.line;
                let level = level_word(level);
                writeln!(f, "no {number} {line} {level} {returned}")
            }
        }
    }
}

// What a line comes to, where these are the answers of the calls from here on.
fn outcome_of(
    reply: &Result<Call, Refused>,
    left: &mut Iter<'_, Answer>,
) -> Option<Result<Done, Refused>>
    ensures outcome { result ≡ outcome reply.now left.old.rest.now }
    ensures left { left.new.rest.now ≡ answers_left reply.now left.old.rest.now }
{
    match *reply {
        Ok(_) => Some(left.next()?.map_err(Refused::from)),
        Err(e) => Some(Err(e)),
    }
}

// What the lines of a job are answered with, where these are the answers of its calls.
pub(crate) fn write_all(
    heap: Global,
    said: &[Said],
    answers: &[Answer],
) -> Result<String, AllocError>
    ensures { IfOk result (λ t. string_bytes t ≡ text_of said.now answers.now) }
{
    let mut text = String::new(heap);
    let mut left = answers.iter();
    for s in said {
        if let Some(outcome) = outcome_of(&s.reply, &mut left) {
            let told = Outcome {
                line: s.line,
                outcome,
            };
            write!(text, "{told}")?;
        }
    }
    Ok(text)
}
