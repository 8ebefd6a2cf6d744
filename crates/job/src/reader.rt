// A line that is read word by word.
ghost use Rattle.std.specs.Prelude.{◌≤◌, length, IfSome};

/// The most bytes that a line may have, without its newline.
pub const LINE_BYTES: usize = 80;

/// A part of a text, and its place, which is how many bytes of the text stand before it: a line of a job, or a word of a line.
#[derive(Clone, Copy, Debug, PartialEq, Eq)]
pub struct Part<'a> {
    pub place: usize,
    pub text: &'a [u8],
}

// By a rule of the project a struct over a line's bytes, with its place, hands out parts of them.
/// Reads a line word by word. The next word begins at the place `next`, if there is one. What it hands out are parts of the line
/// itself.
#[derive(Debug, PartialEq, Eq, Drop)]
pub struct WordReader<'a> {
    pub(crate) line: &'a [u8],
    pub(crate) next: Option<usize>,
    ghost in_line: { ∥ IfSome next (λ place. place ≤ length line.now) ∥₁ },
}

/// The place of the first word of a line that does not fit, or the line's length if a word is missing.
#[derive(Clone, Copy, Debug, PartialEq, Eq)]
pub struct Unreadable {
    pub place: usize,
}
