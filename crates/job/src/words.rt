// The words of a line.
ghost use Rattle.std.specs.Prelude.{◌≡◌, List, ℕ, Option, drop, OnOk};
ghost use Rattle.std.specs.Iterator.{item_count};
ghost use Rattle.std.specs.Result.{result_err};
ghost use Rattle.job.specs.Text.{words};
ghost use Rattle.job.specs.Numbers.{number};
ghost use Rattle.job.specs.Reading.{NextWord, Computes, left, of_words, read_by, read_numbers, read_end, letter};

use crate::number::parse_number;
use crate::reader::{Part, Unreadable, WordReader};
use crate::scan::find;

impl<'a> Iterator for WordReader<'a> {
    type Item = Part<'a>;

    ghost next_gives = { NextWord };

    ghost remaining = { item_count left };

    /// The next word, or none if none is left.
    fn next(&mut self) -> Option<Part<'a>> {
        let place = self.next?;
        let rest = &self.line[place..];
        let end = find(rest, b' ');
        // an `if`: `then_some` would make the next place before the test
        self.next = if end < rest.len() {
            Some(place + end + 1)
        } else {
            None
        };
        let text = &rest[..end];
        Some(Part { place, text })
    }
}

// Whether a word is the first of two letters, or else the second.
fn which_letter(word: &[u8], one: u8, other: u8) -> Option<bool>
    ensures { result ≡ letter one other word.now }
{
    if word == [one].as_slice() {
        Some(true)
    } else if word == [other].as_slice() {
        Some(false)
    } else {
        None
    }
}

impl<'a> WordReader<'a> {
    /// A reader at the first word of a line.
    pub fn new(line: &'a [u8]) -> WordReader<'a>
        ensures words { left result ≡ words 0 line.now }
        ensures line { result.line.now ≡ line.now }
    {
        WordReader {
            line,
            next: Some(0),
        }
    }

    /// The next word, as what `parse` makes of its bytes.
    // `words` and `line` stay clauses, here and below: `words` differs, and `line` is one equation, so that a record is no plainer.
    // Not handed out: that `parse` may be called is a premise, and no function that is handed out has one.
    pub(crate) fn read<T, F: FnOnce(&[u8]) -> Option<T>>(
        &mut self,
        parse: F,
    ) -> Result<T, Unreadable>
        requires { F.IsAlwaysCallable parse }
        ensures answer { (value : List ℕ → Option T) → Computes F.FnOnce parse value → result ≡ of_words (read_by value) self.old }
        ensures words { left self.new ≡ drop 1 (left self.old) }
        ensures line { self.new.line.now ≡ self.old.line.now }
    {
        let end = self.line.len();
        let word = self.next().ok_or(Unreadable { place: end })?;
        parse(word.text).ok_or(Unreadable { place: word.place })
    }

    /// The next word as a number.
    pub fn number(&mut self) -> Result<u32, Unreadable>
        ensures answer { result ≡ of_words (read_by number) self.old }
        ensures words { left self.new ≡ drop 1 (left self.old) }
        ensures line { self.new.line.now ≡ self.old.line.now }
    {
        self.read(parse_number)
    }

    /// The next words as numbers.
    pub fn numbers<const N: usize>(&mut self) -> Result<[u32; N], Unreadable>
        ensures answer { result ≡ of_words (read_numbers N) self.old }
        ensures words { OnOk result (left self.new ≡ drop N (left self.old)) }
        ensures line { self.new.line.now ≡ self.old.line.now }
    {
        let mut values = [0; N];
        for value in values.iter_mut() {
            *value = self.number()?;
        }
        Ok(values)
    }

    /// The next word as one of two letters: whether it is the first.
    pub fn letter(&mut self, one: u8, other: u8) -> Result<bool, Unreadable>
        ensures answer { result ≡ of_words (read_by (letter one other)) self.old }
        ensures words { left self.new ≡ drop 1 (left self.old) }
        ensures line { self.new.line.now ≡ self.old.line.now }
    {
        self.read(|word| which_letter(word, one, other))
    }

    /// That no word is left; else the place of the next.
    pub fn finish(&self) -> Result<(), Unreadable>
        ensures { result_err result ≡ read_end (left self.now) }
    {
        match self.next {
            Some(place) => Err(Unreadable { place }),
            None => Ok(()),
        }
    }
}
