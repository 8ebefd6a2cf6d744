// A job that uses up its 256 places.
use crate::asked::answered;
use std::alloc::{AllocError, Global};
use std::test::Fail;

/// What comes behind 256 accepted places, from line 259 on, and its answers.
const BEHIND: [(&str, &str); 9] = [
    ("place 1 0 0 1 1 0 0\n", "no 7 259 panel 1\n"),
    ("place 3 0 0 1 1 0 0\n", "no 2 260 panel 0\n"),
    ("place 1 0 0 1 1 256 0\n", "no 4 261 panel 0\n"),
    ("place 1 0 0 0 1 0 0\n", "no 5 262 panel 0\n"),
    ("lift 257\n", "no 9 263 panel 0\n"),
    ("lift 7\n", "ok 1\n"),
    ("place 2 0 0 1 1 0 0\n", "ok 257\n"),
    ("place 2 0 0 1 1 0 0\n", "no 7 266 panel 1\n"),
    ("lift 7\n", "no 9 267 panel 0\n"),
];

/// Each kind with each register.
const PANELS: [&str; 4] = [
    "panel 100 60 2 m p\nopen\n",
    "panel 100 60 2 m s\nopen\n",
    "panel 100 60 2 v p\nopen\n",
    "panel 100 60 2 v s\nopen\n",
];

fn full_job(heap: Global, panel: &str) -> Result<String, AllocError> {
    let mut job = String::from_str(heap, panel)?;
    for _ in 0..256 {
        job.push_str("place 1 0 0 1 1 0 0\n")?;
    }
    for (line, _) in &BEHIND {
        job.push_str(*line)?;
    }
    Ok(job)
}

fn full_answers(heap: Global) -> Result<String, AllocError> {
    let mut answers = String::new(heap);
    for number in 1..257 {
        let answer = format!(in heap; "ok {number}\n")?;
        answers.push_str(answer.as_str())?;
    }
    for (_, answer) in &BEHIND {
        answers.push_str(*answer)?;
    }
    Ok(answers)
}

#[test]
fn places_used_up(rt: HostRuntime) -> Result<(), Fail> {
    let answers = full_answers(rt.alloc())?;
    for panel in &PANELS {
        let job = full_job(rt.alloc(), *panel)?;
        answered(&rt, rt.alloc(), job.as_str(), answers.as_str())?;
    }
    Ok(())
}
