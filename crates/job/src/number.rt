// Numbers as a job writes them.
ghost use Rattle.std.specs.Prelude.{◌≡◌, ◌≤◌, length, if◌then◌else◌, Some, None};
ghost use Rattle.geometry.specs.Lists.{all_of};
ghost use Rattle.job.specs.Numbers.{number, digit, decimal};

/// The value of a word of 1 to 7 digits without a needless leading zero, or none.
pub fn parse_number(word: &[u8]) -> Option<u32>
    ensures { result ≡ number word.now }
{
    match word {
        [b'0'] => Some(0),
        [b'1'..=b'9', ..] if word.len() <= 7 => parse_digits(word),
        _ => None,
    }
}

// The decimal value of at most 7 digits, or none if not all bytes are digits.
fn parse_digits(word: &[u8]) -> Option<u32>
    requires { length word.now ≤ 7 }
    ensures { result ≡ (if all_of digit word.now then Some (decimal 0 word.now) else None) }
{
    // no chain: its steps would each have to test for a sum too large, which the length rules out
    let mut value = 0;
    for b in word {
        if !b.is_ascii_digit() {
            return None;
        }
        value = value * 10 + u32::from(*b - b'0');
    }
    Some(value)
}
