//! Numbers that a text writes in decimal digits.
#![tactic(auto)]

ghost use Rattle.std.specs.Prelude.{◌≡◌};
ghost use Rattle.std.specs.Char.{is_ascii_digit};
ghost use Rattle.std.specs.List.{list_all};
ghost use Rattle.decimals.specs.Number.{is_digits, is_number, number};

/// The most digits of a number: all that have so few are below 2^64.
pub const MAX_DIGITS: usize = 18;

fn are_all_digits(bytes: &[u8]) -> bool
    ensures { result ≡ list_all is_ascii_digit bytes.now }
{
    bytes.iter().all(|b| b.is_ascii_digit())
}

/// Whether the bytes are one digit or more, and nothing else.
pub fn is_digits(bytes: &[u8]) -> bool
    ensures digits { result ≡ is_digits bytes.now }
{
    !bytes.is_empty() && are_all_digits(bytes)
}

fn is_number(text: &str) -> bool
    ensures { result ≡ is_number text.now }
{
    text.len() <= MAX_DIGITS && is_digits(text.as_bytes())
}

/// The number of a text of 1 to [`MAX_DIGITS`] digits.
pub fn parse_number(text: &str) -> Option<u64>
    ensures number { result ≡ number text.now }
{
    if !is_number(text) {
        return None;
    }
    text.parse().ok()
}
