//! Ids and revisions, as lines write them.
ghost use Rattle.std.specs.Prelude.{◌≡◌, ◌++◌, Some, IfOk, IfSome, OnOk, string_bytes};
ghost use Rattle.json.specs.Print.{quoted};
ghost use Rattle.serde_json.specs.Data.{string};
ghost use Rattle.serde_json.specs.Written.{compact_text};
ghost use Rattle.model.specs.Command.{Id, IsId};
ghost use Rattle.model.specs.Revision.{Rev, IsRev, rev_text};
ghost use Rattle.document_json.specs.Written.{rev_data};

use crate::line_value::LineValue;
use document_id::{DocId, IdFault};
use document_json::put_string;
use json_profile::Json;
use revision_id::RevId;
use std::alloc::{AllocError, Global};

impl LineValue for DocId {
    ghost data_of = { string };

    ghost is_within = { IsId };

    fn put(&self, text: &mut String, alloc: Global) -> Result<(), AllocError> {
        put_string(text, alloc, self.as_str())
    }

    fn read(alloc: Global, value: Json) -> Result<Option<DocId>, AllocError> {
        let Some(text) = value.as_str() else {
            return Ok(None);
        };
        read_id(alloc, text)
    }
}

/// The id of this text, if it is one.
pub(crate) fn read_id(alloc: Global, text: &str) -> Result<Option<DocId>, AllocError>
    ensures within { IfOk result (λ found. IfSome found IsId) }
    ensures found { IfOk result (λ found. (id : Id) → IsId id → text.now ≡ id → found ≡ Some id) }
{
    match DocId::new(alloc, text) {
        Ok(id) => {
            let _recalled = id.as_str();
            Ok(Some(id))
        }
        Err(IdFault::Length) => Ok(None),
        Err(IdFault::Memory) => Err(AllocError),
    }
}

impl LineValue for RevId {
    ghost data_of = { rev_data };

    ghost is_within = { IsRev };

    fn put(&self, text: &mut String, alloc: Global) -> Result<(), AllocError> {
        let rev = self.text(alloc)?;
        put_string(text, alloc, rev.as_str())
    }

    fn read(_alloc: Global, value: Json) -> Result<Option<RevId>, AllocError> {
        let Some(text) = value.as_str() else {
            return Ok(None);
        };
        Ok(read_rev(text))
    }
}

/// The revision of this text, if there is one.
pub(crate) fn read_rev(text: &str) -> Option<RevId>
    ensures within { IfSome result IsRev }
    ensures found { (rev : Rev) → IsRev rev → text.now ≡ rev_text rev → result ≡ Some rev }
{
    match RevId::parse(text) {
        Ok(rev) => Some(rev),
        Err(_) => None,
    }
}
