//! Revisions, as requests write them.
ghost use Rattle.std.specs.Prelude.{◌≡◌, IfSome};
ghost use Rattle.model.specs.Revision.{IsRev};
ghost use Rattle.document_json.specs.Revisions.{rev_named, rev_with};
ghost use Rattle.document_json.specs.Steps.{or_refused};
ghost use Rattle.document_json.specs.declared.fault.Reason.TheVariants.{Revision};

use crate::fault::Reason;
use revision_id::RevId;

/// The revision of this text, if there is one.
fn read_revision(text: &str) -> Option<RevId>
    ensures { result ≡ rev_named text.now }
{
    match RevId::parse(text) {
        Ok(rev) => {
            let _recalled = rev.generation();
            Some(rev)
        }
        Err(_) => None,
    }
}

/// The revision of this text, which has to be one.
///
/// # Errors
///
/// Another text is refused by [`Reason::Revision`].
pub fn name_revision(text: &str) -> Result<RevId, Reason>
    ensures { result ≡ or_refused (rev_named text.now) Revision }
{
    match read_revision(text) {
        Some(rev) => Ok(rev),
        None => Err(Reason::Revision),
    }
}

/// The revision of this generation whose hash has this text, if there is one.
pub(crate) fn read_revision_with(generation: u32, hash: &str) -> Option<RevId>
    ensures revision { result ≡ rev_with generation hash.now }
    ensures is_rev { IfSome result (λ rev. (rev.generation ≡ generation) × IsRev rev) }
{
    match RevId::from_parts(generation, hash) {
        Ok(rev) => {
            let _recalled = rev.generation();
            Some(rev)
        }
        Err(_) => None,
    }
}
