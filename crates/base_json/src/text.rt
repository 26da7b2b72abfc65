//! What a text begins with, and what is behind it.
ghost use Rattle.std.specs.Prelude.{◌≡◌, ◌↔◌, ◌++◌, ◌≤◌, ℕ, List, Some, IfSome, IsTrue, MatchOption, decimal, option_map, true};
ghost use Rattle.std.specs.Char.{is_ascii_digit};
ghost use Rattle.std.specs.List.{list_all};
ghost use Rattle.base_json.specs.Pieces.{begins_no_digit};

use std::str;

/// What is behind a front, if the text has it.
pub(crate) fn after<'a>(text: &'a [u8], front: &str) -> Option<&'a [u8]>
    ensures found { (rest : List ℕ) → text.now ≡ front.now ++ rest → option_map (λ r. r.now) result ≡ Some rest }
    ensures is { IfSome result (λ r. text.now ≡ front.now ++ r.now) }
{
    let len = front.len();
    if text.len() < len {
        return None;
    }
    let (begin, rest) = text.split_at(len);
    if !are_same(begin, front.as_bytes()) {
        return None;
    }
    Some(rest)
}

/// Whether these are the same bytes.
fn are_same(one: &[u8], other: &[u8]) -> bool
    ensures { IsTrue result ↔ (one.now ≡ other.now) }
{
    one == other
}

/// The number that a text begins with behind a front, and what is behind its digits.
pub(crate) fn read_number<'a>(text: &'a [u8], front: &str) -> Option<(u64, &'a [u8])>
    ensures found { (n : ℕ) (rest : List ℕ) → n ≤ 9223372036854775807 → begins_no_digit rest ≡ true → text.now ≡ front.now ++ (decimal n ++ rest)
        → MatchOption result ⊥ (λ found. (found.0 ≡ n) × (found.1.now ≡ rest)) }
{
    let (digits, rest) = split_digits(after(text, front)?);
    let Ok(digits) = str::from_utf8(digits) else {
        return None;
    };
    let Ok(number) = digits.parse::<u64>() else {
        return None;
    };
    Some((number, rest))
}

/// The number of 32 bits that a text begins with behind a front, and what is behind its digits.
pub(crate) fn read_small_number<'a>(text: &'a [u8], front: &str) -> Option<(u32, &'a [u8])>
    ensures found { (n : ℕ) (rest : List ℕ) → n ≤ 4294967295 → begins_no_digit rest ≡ true → text.now ≡ front.now ++ (decimal n ++ rest)
        → MatchOption result ⊥ (λ found. (found.0 ≡ n) × (found.1.now ≡ rest)) }
{
    let (number, rest) = read_number(text, front)?;
    let Ok(number) = u32::try_from(number) else {
        return None;
    };
    Some((number, rest))
}

/// The digits that a text begins with, and what is behind them.
fn split_digits(text: &[u8]) -> (&[u8], &[u8])
    ensures { (digits rest : List ℕ) → list_all is_ascii_digit digits ≡ true → begins_no_digit rest ≡ true → text.now ≡ digits ++ rest
        → (result.0.now ≡ digits) × (result.1.now ≡ rest) }
{
    for at in 0..text.len() {
        if !text[at].is_ascii_digit() {
            return text.split_at(at);
        }
    }
    text.split_at(text.len())
}
