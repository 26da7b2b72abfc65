//! Revisions of local documents, as requests write them.
ghost use Rattle.std.specs.Prelude.{◌≡◌, IfOk, IfSome, option_map};
ghost use Rattle.model.specs.Command.{IsCounter};
ghost use Rattle.document_json.specs.Local.{counter_in, counter_named, counter_of};

use crate::fault::Reason;
use crate::number::from_one;
use decimals::parse_number;

/// A number from 1, without leading zeros.
fn parse_counter(digits: &str) -> Option<u32>
    ensures counter { result ≡ counter_of digits.now }
    ensures is_counter { IfSome result IsCounter }
{
    if matches!(digits.as_bytes(), [b'0', ..]) {
        return None;
    }
    match parse_number(digits) {
        Some(number) => from_one(number),
        None => None,
    }
}

/// The number of the revision of this text, which is `0-` and the number.
fn read_counter(text: &str) -> Option<u32>
    ensures counter { result ≡ counter_named text.now }
    ensures is_counter { IfSome result IsCounter }
{
    match text.split_once('-') {
        Some((zero, digits)) if zero == "0" => parse_counter(digits),
        _ => None,
    }
}

/// The number of the local revision of this text, which is `0-` and the number from 1, where a
/// text is given.
///
/// # Errors
///
/// Another text is refused by [`Reason::Revision`].
pub fn name_counter(text: Option<&str>) -> Result<Option<u32>, Reason>
    ensures decides { result ≡ counter_in (option_map (λ t. t.now) text.entry) }
    ensures is_counter { IfOk result (λ counter. IfSome counter IsCounter) }
{
    let Some(text) = text else {
        return Ok(None);
    };
    match read_counter(text) {
        Some(counter) => Ok(Some(counter)),
        None => Err(Reason::Revision),
    }
}
