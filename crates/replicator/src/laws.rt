//! What holds of the calls of a replication, whatever its ends answer.
ghost use Rattle.std.specs.Prelude.{◌≡◌, List, Some, Ok};
ghost use Rattle.std.specs.List.{FoldsTo};
ghost use Rattle.replicator.specs.declared.progress.Progress.TheVariants as progress;
ghost use Rattle.replicator.specs.Log.{EndsWithoutChanges, IsSound, log_of};
ghost use Rattle.replicator.specs.Run.{Exchange, IsStep, Party, Step};
ghost use Rattle.replicator.specs.Stage.{Unread};

use crate::peer::Peer;

/// After any steps from the beginning on, whatever was answered and whatever failed, the next call is
/// sound by the calls before it: a checkpoint is written only where all up to it is covered, the
/// target's first, and each document that is sent was in an answer of the source and is one of
/// those that the worker is to bring. The replication is done only where the source has no more
/// changes of them.
pub fn calls_are_sound<S: Peer, T: Peer>()
    ensures calls { (old now next : Party S T) (steps : List Step) (step : Step) → old.worker.stage ≡ Unread
        → FoldsTo (IsStep S.goes T.goes) old steps now → IsStep S.goes T.goes now step next
        → (e : Exchange) → step.exchange ≡ Some e
        → IsSound old.worker.job (log_of steps) e.side e.call }
    ensures done { (old now next : Party S T) (steps : List Step) (step : Step) → old.worker.stage ≡ Unread
        → FoldsTo (IsStep S.goes T.goes) old steps now → IsStep S.goes T.goes now step next
        → step.result ≡ Ok progress.Done
        → EndsWithoutChanges old.worker.job (log_of steps) step }
{}
