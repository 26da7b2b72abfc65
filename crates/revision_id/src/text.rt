//! The parts of an identity's text: a generation in decimal, and a hash in hexadecimal.
ghost use Rattle.std.specs.Prelude.{◌≡◌, ◌≢◌, ◌↔◌, ◌<◌, ◌≤◌, ℕ, List, length, decimal, slice_index, IsTrue, MatchOption};
ghost use Rattle.std.specs.Int.{IsInRange};
ghost use Rattle.hex.specs.Hex.{encode_lower, IsBytes};
ghost use Rattle.model.specs.Revision.{last_generation};

use hex::FromHex;

pub(crate) fn read_generation(text: &str) -> Option<u32>
    ensures { MatchOption result
        ((n : ℕ) → 0 < n → n ≤ last_generation → decimal n ≢ text.now)
        (λ n. (0 < n) × (decimal n ≡ text.now)) }
{
    if begins_above_zero(text) {
        text.parse::<u32>().ok()
    } else {
        None
    }
}

fn begins_above_zero(text: &str) -> bool
    ensures { IsTrue result ↔ IsInRange 49 57 (slice_index text.now 0) }
{
    matches!(text.as_bytes().first(), Some(b'1'..=b'9'))
}

pub(crate) fn read_hash(text: &str) -> Option<[u8; 16]>
    ensures { MatchOption result
        ((hash : List ℕ) → length hash ≡ 16 → IsBytes hash → encode_lower hash ≢ text.now)
        (λ hash. encode_lower hash ≡ text.now) }
{
    let Ok(hash) = <[u8; 16]>::from_hex(text) else {
        return None;
    };
    if lower_hex(hash).as_slice() == text.as_bytes() {
        Some(hash)
    } else {
        None
    }
}

pub(crate) fn lower_hex(hash: [u8; 16]) -> [u8; 32]
    ensures { result ≡ encode_lower hash }
{
    let mut text = [0; 32];
    match hex::encode_to_slice(hash, &mut text) {
        Ok(()) => text,
        Err(_) => unreachable!(),
    }
}
