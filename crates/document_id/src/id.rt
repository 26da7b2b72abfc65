//! The id of a document or a local document.
ghost use Rattle.std.specs.Prelude.{◌≡◌, ◌↔◌, ◌⊎◌, ◌<◌, IfOk, Some, Err, length, refl};
ghost use Rattle.std.specs.Cmp.{partial_equiv_from_equiv, eq_by_cmp_equiv, po};
ghost use Rattle.std.proofs.lemmas.Cmp.{nat_list_cmp_total};
ghost use Rattle.std.specs.Ordering.{eq_by_cmp, nat_cmp};
ghost use Rattle.std.specs.Cmp.Lexicographic.{slice_cmp};
ghost use Rattle.model.specs.Command.{IsId};
ghost use Rattle.document_id.specs.declared.fault.IdFault.TheVariants.{Length};

use crate::fault::IdFault;
use crate::text::Text;
use index_key::IndexKey;
use std::alloc::{AllocError, Global};
use std::cmp::Ordering;
use std::marker::Model;

/// The most bytes of an id.
const MAX_BYTES: usize = 512;

/// A text of 1 to 512 bytes, shared by all that name the document where it is too long to lie in each.
pub struct DocId {
    text: Text,
}

impl Drop for DocId {
    fn drop(self) {
        let DocId { text: _ } = self;
    }
}

impl Model for DocId {
    ghost use Rattle.model.specs.Command.{Id, IsId};
    ghost use Rattle.document_id.specs.Text.{bytes_of};

    ghost Value = { Id };

    ghost view = { λ d. bytes_of d.text };

    ghost invariant = { λ d. IsId (bytes_of d.text) };
}

impl DocId {
    /// The id with this text, which has 1 to 512 bytes.
    pub fn new(alloc: Global, text: &str) -> Result<DocId, IdFault>
        ensures id { IfOk result (λ id. id ≡ text.now) }
        ensures length { (result ≡ Err Length) ↔ ((length text.now ≡ 0) ⊎ (512 < length text.now)) }
    {
        if text.is_empty() || text.len() > MAX_BYTES {
            return Err(IdFault::Length);
        }
        Ok(DocId {
            text: Text::new(alloc, text)?,
        })
    }

    /// The text.
    pub fn as_str(&self) -> &str
        ensures text { result.now ≡ self.now }
        ensures is_id { IsId self.now }
    {
        self.text.as_str()
    }

    /// The same id. It takes no memory, but is refused at the largest count of a long text's owners.
    pub fn share(&self) -> Result<DocId, AllocError>
        ensures same { IfOk result (λ id. id ≡ self.now) }
    {
        Ok(DocId {
            text: self.text.share()?,
        })
    }
}

// The order of the texts is that of their bytes.
impl PartialEq for DocId {
    ghost eq = { eq_by_cmp (slice_cmp nat_cmp) };

    ghost laws = { partial_equiv_from_equiv (eq_by_cmp_equiv nat_list_cmp_total) };

    fn eq(&self, other: &DocId) -> bool {
        self.cmp(other) == Ordering::Equal
    }
}

impl Eq for DocId {
    ghost laws = { eq_by_cmp_equiv nat_list_cmp_total };
}

impl PartialOrd for DocId {
    ghost partial_cmp = { λ x y. Some (slice_cmp nat_cmp x y) };

    ghost laws = { po nat_list_cmp_total (λ x y. refl) };

    fn partial_cmp(&self, other: &DocId) -> Option<Ordering> {
        Some(self.cmp(other))
    }
}

impl Ord for DocId {
    ghost cmp = { slice_cmp nat_cmp };

    ghost total = { nat_list_cmp_total };

    ghost matches_partial_cmp = { λ x y. refl };

    ghost matches_eq = { λ x y. refl };

    fn cmp(&self, other: &DocId) -> Ordering {
        self.as_str().cmp(other.as_str())
    }
}

impl IndexKey for DocId {
    ghost use Rattle.std.specs.FinMap.{nat_cmp-IsAntisymmetric, slice_cmp-IsAntisymmetric};

    ghost exact = { slice_cmp-IsAntisymmetric nat_cmp-IsAntisymmetric };
}
