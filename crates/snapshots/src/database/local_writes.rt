//! Writes and deletions of local documents.
ghost use Rattle.std.specs.Prelude.{◌≡◌, IfOk, option_map, option_copied};
ghost use Rattle.std.specs.Arc.{arc_value};
ghost use Rattle.model.specs.Database.{put_local_reply, after_put_local};

use crate::database::Database;
use document_id::DocId;
use json_profile::Body;
use local_docs::LocalFault;
use model::Refusal;
use std::alloc::AllocError;
use std::sync::Arc;

impl Database {
    /// Writes a local document, or with no body deletes it.
    pub(super) fn put_local(
        &mut self,
        id: &DocId,
        named: Option<u32>,
        body: Option<&Arc<Body>>,
    ) -> Result<Result<u32, Refusal>, AllocError>
        ensures reply { IfOk result (λ r. r ≡ put_local_reply self.old id.now named (option_map arc_value (option_copied body.entry))) }
        ensures after { IfOk result (λ _. self.new ≡ after_put_local self.old id.now named (option_map arc_value (option_copied body.entry))) }
    {
        match self.locals.write(id, named, body) {
            Ok((locals, counter)) => {
                self.locals = locals;
                Ok(Ok(counter))
            }
            Err(LocalFault::Conflict) => Ok(Err(Refusal::Conflict)),
            Err(LocalFault::Missing) => Ok(Err(Refusal::Missing)),
            Err(LocalFault::LastCounter) => Ok(Err(Refusal::GenerationLimit)),
            Err(LocalFault::Memory) => Err(AllocError),
        }
    }
}
