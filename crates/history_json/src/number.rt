//! Numbers of lines.
ghost use Rattle.std.specs.Prelude.{◌≡◌, ◌≤◌, ℕ, Some, IfSome};
ghost use Rattle.serde_json.specs.Data.{number, unsigned};

use json_profile::Json;

/// The number that a value is, if it is none below 0.
pub fn number_in(value: &Json) -> Option<u64>
    ensures within { IfSome result (λ n. n ≤ 9223372036854775807) }
    ensures found { (n : ℕ) → n ≤ 9223372036854775807 → value.now ≡ number (unsigned n) → result ≡ Some n }
{
    u64::try_from(value.as_i64()?).ok()
}

/// The number that a value is, if it is one of 32 bits.
pub fn small_number_in(value: &Json) -> Option<u32>
    ensures { (n : ℕ) → n ≤ 4294967295 → value.now ≡ number (unsigned n) → result ≡ Some n }
{
    u32::try_from(value.as_i64()?).ok()
}
