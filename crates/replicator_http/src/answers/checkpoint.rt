//! How far a replication had come, as a local document reports.
ghost use Rattle.std.specs.Prelude.{◌≡◌};
ghost use Rattle.document_json.specs.Steps.{Decides};
ghost use Rattle.replicator_http.specs.Checkpoint.{checkpoint_in, checkpoint_of, counter_under, written_counter_of};

use crate::answers::members::{number_under, text_under};
use document_json::{Fault, Reason, name_counter, read_json};
use json_profile::Json;
use std::alloc::Global;

/// The number of a checkpoint's revision, from 1, and the update number of the source that it names,
/// as the answer with its local document reports.
///
/// # Errors
///
/// An answer that is no JSON of the profile is refused as that, one without the revision by
/// [`Reason::Revision`], and one without the number by [`Reason::Shape`].
pub fn read_checkpoint(alloc: Global, body: &[u8]) -> Result<(u32, u64), Fault>
    ensures checkpoint { Decides result (checkpoint_of body.now) }
{
    let value = read_json(alloc, body)?;
    Ok(find_checkpoint(&value)?)
}

fn find_checkpoint(value: &Json) -> Result<(u32, u64), Reason>
    ensures { result ≡ checkpoint_in value.now }
{
    let counter = counter_under(value, "_rev")?;
    let last_seq = number_under(value, "last_seq")?;
    Ok((counter, last_seq))
}

/// The number of the revision that a local document was given, as the answer to its write reports.
///
/// # Errors
///
/// An answer that is no JSON of the profile is refused as that, and one without the revision by
/// [`Reason::Revision`].
pub fn read_written_counter(alloc: Global, body: &[u8]) -> Result<u32, Fault>
    ensures counter { Decides result (written_counter_of body.now) }
{
    let value = read_json(alloc, body)?;
    Ok(counter_under(&value, "rev")?)
}

/// The number of the local revision under a name.
fn counter_under(value: &Json, name: &str) -> Result<u32, Reason>
    ensures { result ≡ counter_under name.now value.now }
{
    match name_counter(text_under(value, name)) {
        Ok(Some(counter)) => Ok(counter),
        Ok(None) | Err(_) => Err(Reason::Revision),
    }
}
