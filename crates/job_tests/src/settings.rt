// Panel, layer and class lines at the ends of their ranges and one past them.
use crate::asked::answered_behind;
use std::test::Fail;

/// A line at the beginning, and its answer: nothing, where it is accepted.
const PANELS: [(&str, &str); 16] = [
    ("panel 1 1 1 m p", ""),
    ("panel 60000 60000 8 m p", ""),
    ("panel 60000 60000 8 m s", ""),
    ("panel 60000 60000 8 v p", ""),
    ("panel 60000 60000 8 v s", ""),
    ("panel 0 1 1 m p", "no 1 1 sheet 0\n"),
    ("panel 1 0 1 m p", "no 1 1 sheet 0\n"),
    ("panel 1 1 0 m p", "no 1 1 sheet 0\n"),
    ("panel 60001 1 1 m p", "no 1 1 sheet 0\n"),
    ("panel 1 60001 1 m p", "no 1 1 sheet 0\n"),
    ("panel 1 1 9 v s", "no 1 1 sheet 0\n"),
    ("panel 9999999 1 1 m p", "no 1 1 sheet 0\n"),
    ("panel 1 9999999 1 m p", "no 1 1 sheet 0\n"),
    ("panel 1 1 9999999 m p", "no 1 1 sheet 0\n"),
    ("panel 65537 1 1 m p", "no 1 1 sheet 0\n"),
    ("panel 1 1 257 m p", "no 1 1 sheet 0\n"),
];

/// A line behind a panel line for one layer, and its answer.
const LAYERS: [(&str, &str); 13] = [
    ("layer 1 0 0 0", ""),
    ("layer 8 0 0 0", ""),
    ("layer 1 65535 65535 1000000", ""),
    ("layer 8 65535 65535 1000000", ""),
    ("layer 0 0 0 0", "no 2 2 sheet 0\n"),
    ("layer 9 0 0 0", "no 2 2 sheet 0\n"),
    ("layer 257 0 0 0", "no 2 2 sheet 0\n"),
    ("layer 9999999 0 0 0", "no 2 2 sheet 0\n"),
    ("layer 1 65536 0 0", "no 2 2 sheet 0\n"),
    ("layer 1 0 65536 0", "no 2 2 sheet 0\n"),
    ("layer 1 0 0 1000001", "no 2 2 sheet 0\n"),
    ("layer 1 9999999 0 0", "no 2 2 sheet 0\n"),
    ("layer 1 0 0 9999999", "no 2 2 sheet 0\n"),
];

/// The same for class lines.
const CLASSES: [(&str, &str); 23] = [
    ("class 1 1 0 1", ""),
    ("class 16 1 0 1", ""),
    ("class 1 500 1000 1000", ""),
    ("class 1 500 0 500", ""),
    ("class 1 1 1000 1", ""),
    ("class 1 2 0 2", ""),
    ("class 1 1 0 1000", ""),
    ("class 0 1 0 1", "no 3 2 sheet 0\n"),
    ("class 17 1 0 1", "no 3 2 sheet 0\n"),
    ("class 257 1 0 1", "no 3 2 sheet 0\n"),
    ("class 9999999 1 0 1", "no 3 2 sheet 0\n"),
    ("class 1 0 0 0", "no 3 2 sheet 0\n"),
    ("class 1 0 0 1", "no 3 2 sheet 0\n"),
    ("class 1 501 0 501", "no 3 2 sheet 0\n"),
    ("class 1 501 0 500", "no 3 2 sheet 0\n"),
    ("class 1 1 1001 1", "no 3 2 sheet 0\n"),
    ("class 1 2 0 1", "no 3 2 sheet 0\n"),
    ("class 1 2 0 0", "no 3 2 sheet 0\n"),
    ("class 1 1 0 1001", "no 3 2 sheet 0\n"),
    ("class 1 65537 0 65537", "no 3 2 sheet 0\n"),
    ("class 1 1 65536 1", "no 3 2 sheet 0\n"),
    ("class 1 1 0 65537", "no 3 2 sheet 0\n"),
    ("class 1 9999999 9999999 9999999", "no 3 2 sheet 0\n"),
];

#[test]
fn panel_lines(rt: HostRuntime) -> Result<(), Fail> {
    for (line, answer) in &PANELS {
        answered_behind(&rt, rt.alloc(), "", *line, *answer)?;
    }
    Ok(())
}

#[test]
fn layer_lines_in_both_kinds(rt: HostRuntime) -> Result<(), Fail> {
    for (line, answer) in &LAYERS {
        answered_behind(&rt, rt.alloc(), "panel 1 1 1 m p\n", *line, *answer)?;
        answered_behind(&rt, rt.alloc(), "panel 1 1 1 v s\n", *line, *answer)?;
    }
    Ok(())
}

#[test]
fn class_lines(rt: HostRuntime) -> Result<(), Fail> {
    for (line, answer) in &CLASSES {
        answered_behind(&rt, rt.alloc(), "panel 1 1 1 m p\n", *line, *answer)?;
    }
    Ok(())
}
