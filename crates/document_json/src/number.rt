//! Numbers from 1, as the limit of revisions, generations and local documents have them.
ghost use Rattle.std.specs.Prelude.{◌≡◌, ◌≤◌, IfSome};
ghost use Rattle.document_json.specs.Numbers.{from_one};

/// The last generation, the last number of a local document, and the largest limit of revisions.
const LAST_NUMBER: u64 = 4_294_967_295;

/// The number, if it is from 1 to 4294967295.
pub fn from_one(number: u64) -> Option<u32>
    ensures number { result ≡ from_one 4294967295 number }
    ensures in_range { IfSome result (λ n. (1 ≤ n) × (n ≤ 4294967295)) }
{
    if number == 0 || number > LAST_NUMBER {
        return None;
    }
    Some(number as u32)
}
