// Whole jobs: newlines, line numbers, stages and what a refused line leaves.
use crate::asked::answered;
use std::test::Fail;

const NEWLINES: [(&str, &str); 9] = [
    ("", ""),
    ("\n", "no 16 1 job 0\n"),
    ("\n\n", "no 16 1 job 0\nno 16 2 job 0\n"),
    ("x", "no 16 1 job 0\n"),
    ("panel", "no 16 1 job 5\n"),
    ("panel 100 60 2 m p", ""),
    ("panel 100 60 2 m p\nopen\nlift 1", "no 9 3 panel 0\n"),
    ("panel 100 60 2 m p\nopen\nlift 1\n", "no 9 3 panel 0\n"),
    (
        "\npanel 100 60 2 m p\n\nopen\nlift 1\n\n",
        "no 16 1 job 0\nno 16 3 job 0\nno 9 5 panel 0\nno 16 6 job 0\n",
    ),
];

const STAGES: [(&str, &str); 14] = [
    // a refused panel line leaves another in turn, and sets nothing
    (
        "panel 0 60 2 m p\npanel 100 60 2 m p\nopen\nlift 1\n",
        "no 1 1 sheet 0\nno 9 4 panel 0\n",
    ),
    (
        "panel x\npanel 100 60 2 m p\nopen\nplace 1 0 0 100 60 0 0\n",
        "no 16 1 job 6\nok 1\n",
    ),
    (
        "panel 100 60 9 m p\npanel 50 60 1 v s\nopen\nplace 1 0 0 51 1 0 0\nplace 2 0 0 1 1 0 0\nplace 1 0 0 50 60 0 0\n",
        "no 1 1 sheet 0\nno 5 4 panel 0\nno 2 5 panel 0\nok 1\n",
    ),
    (
        "panel 0 1 1 m p\nlayer 1 1 1 1\nopen\n",
        "no 1 1 sheet 0\nno 16 2 job 0\nno 16 3 job 0\n",
    ),
    // a second panel line sets nothing
    (
        "panel 100 60 2 m p\npanel 5 5 1 m p\nopen\nplace 2 0 0 100 60 0 0\n",
        "no 16 2 job 0\nok 1\n",
    ),
    // open twice, and nothing is emptied by it
    (
        "panel 100 60 2 m p\nopen\nplace 1 0 0 1 1 0 0\nopen\nplace 1 0 0 1 1 0 0\nlift 1\n",
        "ok 1\nno 16 4 job 0\nok 2\nok 1\n",
    ),
    // place before open, and it does nothing
    (
        "panel 100 60 2 m p\nplace 1 0 0 1 1 0 0\nopen\nlift 1\nplace 1 0 0 1 1 0 0\n",
        "no 16 2 job 0\nno 9 4 panel 0\nok 1\n",
    ),
    ("layer 1 1 1 1\npanel 1 1 1 m p\nopen\n", "no 16 1 job 0\n"),
    // an unreadable open line does not open
    (
        "panel 1 1 1 m p\nopen 1\nclass 1 1 0 1\nplace 1 0 0 1 1 1 0\nopen\nplace 1 0 0 1 1 1 0\n",
        "no 16 2 job 5\nno 16 4 job 0\nok 1\n",
    ),
    // a refused layer or class line leaves the stage
    (
        "panel 1 1 1 m p\nlayer 9 1 1 1\nclass 0 1 1 1\nlayer 8 1 1 1\nopen\nclass 1 1 1 1\nlift 1\n",
        "no 2 2 sheet 0\nno 3 3 sheet 0\nno 16 6 job 0\nno 9 7 panel 0\n",
    ),
    // settings may be repeated
    (
        "panel 1 1 1 m p\nlayer 8 65535 65535 1000000\nlayer 8 0 0 0\nclass 16 500 1000 1000\nclass 16 1 0 1\nopen\n",
        "",
    ),
    // a job that never opens
    ("panel 1 1 1 m p\nlayer 1 1 1 1\nclass 1 1 1 1\n", ""),
    ("open\nopen\n", "no 16 1 job 0\nno 16 2 job 0\n"),
    (
        "panel 100 60 2 m p\nlayer 1 1 3 10\nlayer 2 3 1 0\nclass 1 2 3 3\nopen\nplace 1 40 0 50 60 0 0\nmove 1\nplace 2 40 34 50 39 0 3\nlift 1\nlift 1\n",
        "ok 1\nno 16 7 job 0\nok 2\nok 1\nno 9 10 panel 0\n",
    ),
];

#[test]
fn newlines_end_lines(rt: HostRuntime) -> Result<(), Fail> {
    for (job, answers) in &NEWLINES {
        answered(&rt, rt.alloc(), *job, *answers)?;
    }
    Ok(())
}

#[test]
fn lines_have_their_turn(rt: HostRuntime) -> Result<(), Fail> {
    for (job, answers) in &STAGES {
        answered(&rt, rt.alloc(), *job, *answers)?;
    }
    Ok(())
}
