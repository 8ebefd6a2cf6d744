// Calls of place and lift: each refusal, the order of the checks, and job numbers.
use crate::asked::{answered, answered_behind};
use std::test::Fail;

/// A line on an opened panel of 100 by 60 units with two layers, and its answer.
const CALLS: [(&str, &str); 46] = [
    // layers
    ("place 1 0 0 1 1 0 0", "ok 1\n"),
    ("place 2 0 0 1 1 0 0", "ok 1\n"),
    ("place 0 0 0 1 1 0 0", "no 2 3 panel 0\n"),
    ("place 3 0 0 1 1 0 0", "no 2 3 panel 0\n"),
    ("place 257 0 0 1 1 0 0", "no 2 3 panel 0\n"),
    ("place 9999999 0 0 1 1 0 0", "no 2 3 panel 0\n"),
    // nets
    ("place 1 0 0 1 1 1 0", "ok 1\n"),
    ("place 1 0 0 1 1 255 0", "ok 1\n"),
    ("place 1 0 0 1 1 256 0", "no 4 3 panel 0\n"),
    ("place 1 0 0 1 1 257 0", "no 4 3 panel 0\n"),
    ("place 1 0 0 1 1 9999999 0", "no 4 3 panel 0\n"),
    // rectangles
    ("place 1 0 0 100 60 0 0", "ok 1\n"),
    ("place 1 99 59 100 60 0 0", "ok 1\n"),
    ("place 1 0 0 101 60 0 0", "no 5 3 panel 0\n"),
    ("place 1 0 0 100 61 0 0", "no 5 3 panel 0\n"),
    ("place 1 101 0 102 60 0 0", "no 5 3 panel 0\n"),
    ("place 1 0 61 100 62 0 0", "no 5 3 panel 0\n"),
    ("place 1 101 0 100 60 0 0", "no 5 3 panel 0\n"),
    ("place 1 0 61 100 60 0 0", "no 5 3 panel 0\n"),
    ("place 1 5 0 5 60 0 0", "no 5 3 panel 0\n"),
    ("place 1 6 0 5 60 0 0", "no 5 3 panel 0\n"),
    ("place 1 0 7 100 7 0 0", "no 5 3 panel 0\n"),
    ("place 1 0 8 100 7 0 0", "no 5 3 panel 0\n"),
    ("place 1 0 0 65546 60 0 0", "no 5 3 panel 0\n"),
    ("place 1 0 0 9999999 60 0 0", "no 5 3 panel 0\n"),
    ("place 1 9999998 0 9999999 60 0 0", "no 5 3 panel 0\n"),
    // spaces
    ("place 1 0 0 1 1 0 1000", "ok 1\n"),
    ("place 1 0 0 1 1 0 1001", "no 5 3 panel 0\n"),
    ("place 1 0 0 1 1 0 65536", "no 5 3 panel 0\n"),
    ("place 1 0 0 1 1 0 9999999", "no 5 3 panel 0\n"),
    // 2 before 4 and 5, 4 before 5
    ("place 3 0 0 1 1 256 0", "no 2 3 panel 0\n"),
    ("place 3 5 0 5 1 0 0", "no 2 3 panel 0\n"),
    ("place 0 0 0 1 1 0 1001", "no 2 3 panel 0\n"),
    ("place 0 0 0 101 61 256 1001", "no 2 3 panel 0\n"),
    ("place 1 5 0 5 1 256 0", "no 4 3 panel 0\n"),
    ("place 1 0 0 101 1 256 0", "no 4 3 panel 0\n"),
    ("place 1 0 0 1 1 256 1001", "no 4 3 panel 0\n"),
    // numbers that no piece has
    ("lift 0", "no 9 3 panel 0\n"),
    ("lift 1", "no 9 3 panel 0\n"),
    ("lift 2", "no 9 3 panel 0\n"),
    ("lift 65535", "no 9 3 panel 0\n"),
    ("lift 65536", "no 9 3 panel 0\n"),
    ("lift 65537", "no 9 3 panel 0\n"),
    ("lift 131072", "no 9 3 panel 0\n"),
    ("lift 9999998", "no 9 3 panel 0\n"),
    ("lift 9999999", "no 9 3 panel 0\n"),
];

/// Lines on such a panel, and their answers.
const RUNS: [(&str, &str); 5] = [
    // placed rectangles may overlap, and touch, whatever their nets and spaces
    (
        "place 1 0 0 10 10 1 0\nplace 1 0 0 10 10 2 1000\nplace 1 5 5 15 15 0 0\nplace 1 0 0 10 10 0 5\nplace 1 10 0 20 10 1 7",
        "ok 1\nok 2\nok 3\nok 4\nok 5\n",
    ),
    // job numbers count on after lifts, and none is given twice
    (
        "place 1 0 0 1 1 0 0\nplace 1 0 0 1 1 0 0\nlift 2\nlift 2\nplace 1 0 0 1 1 0 0\nlift 1\nlift 3\nplace 2 0 0 1 1 0 0\nlift 3\nlift 4",
        "ok 1\nok 2\nok 1\nno 9 6 panel 0\nok 3\nok 1\nok 1\nok 4\nno 9 11 panel 0\nok 1\n",
    ),
    // no number above 65,535 is taken for the one that it has in 16 bits
    (
        "place 1 0 0 1 1 0 0\nlift 65537\nlift 131073\nlift 65536\nlift 0\nlift 2\nlift 1\nlift 1",
        "ok 1\nno 9 4 panel 0\nno 9 5 panel 0\nno 9 6 panel 0\nno 9 7 panel 0\nno 9 8 panel 0\nok 1\nno 9 10 panel 0\n",
    ),
    // refusals give no job number and take nothing out
    (
        "place 1 0 0 1 1 0 0\nplace 3 0 0 1 1 0 0\nplace 1 0 0 1 1 256 0\nplace 1 0 0 1 1 0 1001\nlift 7\nmove\nplace 1 0 0 1 1 0\nplace 1 0 0 1 1 0 0\nlift 1",
        "ok 1\nno 2 4 panel 0\nno 4 5 panel 0\nno 5 6 panel 0\nno 9 7 panel 0\nno 16 8 job 0\nno 16 9 job 17\nok 2\nok 1\n",
    ),
    (
        "lift 1\nplace 1 0 0 1 1 0 0\nlift 1",
        "no 9 3 panel 0\nok 1\nok 1\n",
    ),
];

/// Each kind with each register: what a job says of place and lift is the same.
const PANELS: [&str; 4] = [
    "panel 100 60 2 m p\nopen\n",
    "panel 100 60 2 m s\nopen\n",
    "panel 100 60 2 v p\nopen\n",
    "panel 100 60 2 v s\nopen\n",
];

#[test]
fn one_call(rt: HostRuntime) -> Result<(), Fail> {
    for (line, answer) in &CALLS {
        answered_behind(&rt, rt.alloc(), PANELS[0], *line, *answer)?;
    }
    Ok(())
}

#[test]
fn several_calls(rt: HostRuntime) -> Result<(), Fail> {
    for panel in &PANELS {
        for (lines, answers) in &RUNS {
            answered_behind(&rt, rt.alloc(), *panel, *lines, *answers)?;
        }
    }
    Ok(())
}

/// The layers, the width and the height of a panel are those of its own line.
#[test]
fn other_sizes(rt: HostRuntime) -> Result<(), Fail> {
    answered(
        &rt,
        rt.alloc(),
        "panel 60000 60000 8 v s\nopen\nplace 8 59999 59999 60000 60000 255 1000\nplace 8 0 0 60001 1 0 0\nplace 9 0 0 1 1 0 0\n",
        "ok 1\nno 5 4 panel 0\nno 2 5 panel 0\n",
    )?;
    answered(
        &rt,
        rt.alloc(),
        "panel 1 1 1 m p\nopen\nplace 1 0 0 1 1 0 0\nplace 1 0 0 2 1 0 0\nplace 2 0 0 1 1 0 0\n",
        "ok 1\nno 5 4 panel 0\nno 2 5 panel 0\n",
    )
}
