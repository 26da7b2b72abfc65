//! Reading from a source.
ghost use Rattle.std.specs.Prelude.{◌≡◌, ◌+◌, ◌<◌, ◌≤◌, length, take, drop, Ok, IfOk, OnErr};
ghost use Rattle.std.specs.Io.KnownBytes.{Consumes, Keeps, IsAtEnd};
ghost use Rattle.streams.specs.Counts.{CountsFailure};

use crate::traits::{Failed, Source};

/// Reads once, at most so many bytes into those from `end` on, and answers how many came: none only at
/// the end of the input. The bytes before `end` stay.
///
/// # Errors
///
/// The read failed. No byte came.
pub fn read_behind<R: Source>(
    reader: &mut R,
    bytes: &mut Vec<u8>,
    end: usize,
    most: usize,
) -> Result<usize, Failed>
    requires room { end < length bytes.old.items }
    requires some { 0 < most }
    ensures front { take end bytes.new.items ≡ take end bytes.old.items }
    ensures len { length bytes.new.items ≡ length bytes.old.items }
    ensures within { IfOk result (λ n. end + n ≤ length bytes.new.items) }
    ensures most { IfOk result (λ n. n ≤ most) }
    ensures piece { IfOk result (λ n.
        Consumes (R.left reader.old) (R.left reader.new) (take n (drop end bytes.new.items))) }
    ensures end { result ≡ Ok 0 → IsAtEnd (R.left reader.new) }
    ensures budget { IfOk result (λ n. R.budget reader.new + n ≤ R.budget reader.old) }
    ensures err { OnErr result (Keeps (R.left reader.old) (R.left reader.new)) }
    ensures failures { CountsFailure (R.failed_reads reader.old)
        (R.failed_reads reader.new) result }
{
    let top = bytes.len().min(end.saturating_add(most));
    reader.read(&mut bytes[end..top])
}
