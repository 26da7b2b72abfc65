//! Seats, as lines write them.
ghost use Rattle.std.specs.Prelude.{◌≡◌, ◌++◌, ◌∷◌, ◌≤◌, [], true, Some, IfOk, IfSome, OnOk, string_bytes, codes};
ghost use Rattle.serde_json.specs.Data.{member, no_members, number, unsigned};
ghost use Rattle.serde_json.specs.Written.{members_text};
ghost use Rattle.model.specs.Command as model;
ghost use Rattle.history_json.specs.Line.{largest_call, seat_data};

use crate::number::number_in;
use commands::Seat;
use json_profile::Json;
use std::alloc::{AllocError, Global};

/// Writes the seat as the last member.
pub(crate) fn put_seat(text: &mut String, seat: Seat) -> Result<(), AllocError>
    ensures { OnOk result (string_bytes text.new
        ≡ string_bytes text.old ++ members_text true (member (codes "seat") (seat_data seat) no_members)) }
{
    let (session, call) = (seat.session(), seat.call());
    write!(text, ",\"seat\":[{session},{call}]}}")
}

/// The seat that a value is.
pub(crate) fn read_seat(alloc: Global, value: Json) -> Result<Option<Seat>, AllocError>
    ensures within { IfOk result (λ found. IfSome found (λ seat. model.IsSeat seat × (seat.call ≤ largest_call))) }
    ensures found { IfOk result (λ found. (seat : model.Seat) → model.IsSeat seat → seat.call ≤ largest_call
        → value ≡ seat_data seat → found ≡ Some seat) }
{
    let Some(items) = value.into_list(alloc)? else {
        return Ok(None);
    };
    Ok(seat_of(items.as_slice()))
}

/// The seat of these two numbers.
fn seat_of(items: &[Json]) -> Option<Seat>
    ensures within { IfSome result (λ seat. model.IsSeat seat × (seat.call ≤ largest_call)) }
    ensures found { (seat : model.Seat) → model.IsSeat seat → seat.call ≤ largest_call
        → items.now ≡ number (unsigned seat.session) ∷ number (unsigned seat.call) ∷ [] → result ≡ Some seat }
{
    if items.len() != 2 {
        return None;
    }
    let session = u16::try_from(number_in(&items[0])?).ok()?;
    let call = number_in(&items[1])?;
    let seat = Seat::new(session, call)?;
    let _recalled = seat.session();
    Some(seat)
}
