// Looking for a byte.
ghost use Rattle.std.specs.Prelude.{◌≡◌, ◌≤◌, length};
ghost use Rattle.job.specs.Text.{before};

// How many bytes stand before the first `b`: all of them, if there is none.
pub(crate) fn find(bytes: &[u8], b: u8) -> usize
    ensures value { result ≡ before b bytes.now }
    ensures bound { result ≤ length bytes.now }
{
    bytes.iter().position(|x| *x == b).unwrap_or(bytes.len())
}
