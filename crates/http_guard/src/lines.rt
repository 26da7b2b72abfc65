//! The lines by which a page may read an answer.
ghost use Rattle.std.specs.Prelude.{◌≡◌, ◌+◌, ◌<◌, ◌++◌, List, ℕ, length, drop};
ghost use Rattle.origin_policy.specs.Answers.{allowing};

use origin_policy::{ALLOW, ALLOWED};

/// How many bytes they have for a page of this origin.
pub(crate) fn allowing_len(origin: &[u8]) -> usize
    ensures { result ≡ length (allowing origin.now) }
{
    ALLOW.len() + origin.len() + ALLOWED.len()
}

/// Their bytes from a place on, up to the end of a part of them.
pub(crate) fn allowing_part<'a>(origin: &'a [u8], at: usize) -> &'a [u8]
    requires { at < length (allowing origin.now) }
    ensures some { 0 < length result.now }
    ensures front { (rest : List ℕ) × (drop at (allowing origin.now) ≡ result.now ++ rest) }
{
    part_of(ALLOW, origin, ALLOWED, at)
}

/// The bytes of three texts from a place on, up to the end of one of them.
fn part_of<'a>(first: &'a [u8], second: &'a [u8], third: &'a [u8], at: usize) -> &'a [u8]
    requires { at < length first.now + (length second.now + length third.now) }
    ensures some { 0 < length result.now }
    ensures front { (rest : List ℕ) × (drop at (first.now ++ (second.now ++ third.now)) ≡ result.now ++ rest) }
{
    if at < first.len() {
        return &first[at..];
    }
    let behind = at - first.len();
    if behind < second.len() {
        return &second[behind..];
    }
    &third[behind - second.len()..]
}
