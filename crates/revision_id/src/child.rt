//! The rule that makes the identity of an edit's revision.
ghost use Rattle.std.specs.Prelude.{◌≡◌, ◌<◌, IfOk, IfErr, option_copied};
ghost use Rattle.model.specs.Revision.{child as child_of, generation_after, last_generation};
ghost use Rattle.revision_id.specs.declared.fault.RevFault.TheVariants.{LastGeneration};

use crate::fault::RevFault;
use crate::rev::RevId;
use json_profile::Body;
use md5::{Digest, Md5};
use std::alloc::{AllocError, Global};

pub(crate) fn next_generation(parent: Option<&RevId>) -> Result<u32, RevFault>
    ensures next { IfOk result (λ n. (n ≡ generation_after (option_copied parent.entry)) × (0 < n)) }
    ensures last { IfErr result (λ e. (e ≡ LastGeneration) × (last_generation < generation_after (option_copied parent.entry))) }
{
    match parent {
        Some(parent) => parent
            .generation
            .checked_add(1)
            .ok_or(RevFault::LastGeneration),
        None => Ok(1),
    }
}

/// The digest of the flag, the parent's text and the body's, with commas between.
pub(crate) fn child_hash(
    alloc: Global,
    parent: Option<&RevId>,
    deleted: bool,
    body: &Body,
) -> Result<[u8; 16], AllocError>
    ensures { IfOk result (λ hash. hash ≡ (child_of (option_copied parent.entry) deleted body.now).hash) }
{
    let parent = match parent {
        Some(parent) => parent.text(alloc)?,
        None => String::new(alloc),
    };
    let body = body.text();
    let mut hasher = Md5::new();
    hasher.update(if deleted { b"1," } else { b"0," });
    hasher.update(parent.as_bytes());
    hasher.update(b",");
    hasher.update(body.as_bytes());
    Ok(hasher.finalize())
}
