//! How long numbers are.
ghost use Rattle.std.specs.Prelude.{◌≡◌, ◌≤◌, length, decimal};

use itoa::Buffer;

/// The length of a number.
pub(crate) fn digits_len(number: u64) -> usize
    ensures len { result ≡ length (decimal number) }
    ensures short { result ≤ 40 }
{
    let mut digits = Buffer::new();
    digits.format(number).len()
}
