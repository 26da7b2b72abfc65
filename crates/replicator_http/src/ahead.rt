//! Requests that are written ahead of their turn.
ghost use Rattle.std.specs.Prelude.{◌≡◌, ◌↔◌, ◌+◌, ℕ, ◌≤◌, List, [], ◌∷◌, ◌++◌, All, length, drop, string_bytes, IsTrue, OnOk, OnErr};
ghost use Rattle.std.specs.List.{concat};
ghost use Rattle.replicator_http.specs.Ahead.{AsksRevisions, IsWithin};

use crate::requests::open_revs_request;
use document_id::DocId;
use replicator::next_revs;
use revision_id::RevId;
use std::alloc::{AllocError, Global};
use std::collections::VecDeque;
use std::marker::Model;

/// The most requests that are ahead at once.
const MAX_REQUESTS: usize = 100;

/// The most bytes of the requests that are ahead at once: as many as a connection takes whose other end
/// doesn't read.
const MAX_BYTES: usize = 16_384;

/// A request for revisions, and how many it asks for.
struct Early {
    text: String,
    revisions: usize,
}

impl Drop for Early {
    fn drop(self) {
        let Early {
            text: _,
            revisions: _,
        } = self;
    }
}

impl Model for Early {
    ghost use Rattle.std.specs.Prelude.{ℕ, List, string_bytes};

    ghost Value = { List ℕ };

    ghost view = { λ e. string_bytes e.text };
}

impl Early {
    /// Whether this is its text.
    fn is(&self, request: &str) -> bool
        ensures { IsTrue result → self.now ≡ request.now }
    {
        self.text.as_str() == request
    }
}

/// The requests that were written ahead, whose responses are still to come, the next first. Clauses see
/// their texts.
pub(crate) struct Ahead {
    requests: VecDeque<Early>,
    bytes: usize,
}

impl Drop for Ahead {
    fn drop(self) {
        let Ahead {
            requests: _,
            bytes: _,
        } = self;
    }
}

impl Model for Ahead {
    ghost use Rattle.std.specs.Prelude.{◌≡◌, ℕ, List, length};
    ghost use Rattle.std.specs.List.{concat};
    ghost use Rattle.replicator_http.specs.Ahead.{IsWithin};

    ghost Value = { List (List ℕ) };

    ghost view = { λ a. a.requests.items };

    ghost invariant = { λ a. (a.bytes ≡ length (concat a.requests.items)) × IsWithin a.requests.items };
}

impl Ahead {
    /// None.
    pub(crate) fn new(alloc: Global) -> Ahead
        ensures { result ≡ [] }
    {
        Ahead {
            requests: VecDeque::new(alloc),
            bytes: 0,
        }
    }

    /// How many are ahead.
    pub(crate) fn len(&self) -> usize
        ensures { result ≡ length self.now }
    {
        self.requests.len()
    }

    /// Whether this is the next.
    pub(crate) fn is_next(&self, request: &str) -> bool
        ensures { IsTrue result → (rest : List (List ℕ)) × (self.now ≡ request.now ∷ rest) }
    {
        match self.requests.front() {
            Some(next) => next.is(request),
            None => false,
        }
    }

    /// Takes the next away, if there is one.
    pub(crate) fn pop(&mut self)
        ensures { self.new ≡ drop 1 self.old }
    {
        if let Some(next) = self.requests.pop_front() {
            self.bytes -= next.text.len();
        }
    }

    /// Whether so few are ahead that more are written.
    pub(crate) fn is_low(&self) -> bool {
        self.requests.len() <= MAX_REQUESTS / 2 && self.bytes <= MAX_BYTES / 2
    }

    /// Adds requests to a host for the first of these revisions that aren't asked for yet, as many as there are
    /// room and memory for, and their text behind the other.
    pub(crate) fn add(
        &mut self,
        alloc: Global,
        host: &str,
        wanted: &[(DocId, RevId)],
        text: &mut Vec<u8>,
    )
        ensures adds { (more : List (List ℕ)) × (self.new ≡ self.old ++ more) × All (AsksRevisions host.now) more
            × (text.new.items ≡ text.old.items ++ concat more) }
        ensures within { IsWithin self.new }
    {
        let mut at = self.revisions();
        for _asked in 0..MAX_REQUESTS {
            let Some(rest) = wanted.get(at..) else {
                return;
            };
            match self.add_next(alloc, host, rest, text) {
                Ok(revisions) => at = at.saturating_add(revisions),
                Err(_) => return,
            }
        }
    }

    /// For how many revisions the requests ask that are ahead.
    fn revisions(&self) -> usize
        ensures { IsWithin self.now }
    {
        let mut revisions: usize = 0;
        for early in &self.requests {
            revisions = revisions.saturating_add(early.revisions);
        }
        revisions
    }

    /// Adds the request for the first revisions that are of one document, and its text behind the other.
    fn add_next(
        &mut self,
        alloc: Global,
        host: &str,
        wanted: &[(DocId, RevId)],
        text: &mut Vec<u8>,
    ) -> Result<usize, AllocError>
        ensures adds { OnOk result ((request : List ℕ) × (self.new ≡ self.old ++ request ∷ []) × AsksRevisions host.now request
            × (text.new.items ≡ text.old.items ++ request)) }
        ensures err { OnErr result ((self.new ≡ self.old) × (text.new.items ≡ text.old.items)) }
        ensures within { OnOk result (IsWithin self.new) }
    {
        let Some(first) = wanted.first() else {
            return Err(AllocError);
        };
        let revs = next_revs(alloc, &first.0, wanted)?;
        let request = open_revs_request(alloc, host, &first.0, &revs)?;
        self.push(request, revs.len(), text)?;
        Ok(revs.len())
    }

    /// Adds a request, and its text behind the other, unless there is no room for it.
    fn push(
        &mut self,
        request: String,
        revisions: usize,
        text: &mut Vec<u8>,
    ) -> Result<(), AllocError>
        ensures adds { OnOk result ((self.new ≡ self.old ++ string_bytes request ∷ [])
            × (text.new.items ≡ text.old.items ++ string_bytes request)) }
        ensures err { OnErr result ((self.new ≡ self.old) × (text.new.items ≡ text.old.items)) }
        ensures within { OnOk result (IsWithin self.new) }
    {
        let len = request.len();
        if self.requests.len() >= MAX_REQUESTS || len > MAX_BYTES - self.bytes {
            return Err(AllocError);
        }
        let before = text.len();
        text.extend_from_slice(request.as_bytes())?;
        let early = Early {
            text: request,
            revisions,
        };
        let Ok(()) = self.requests.push_back(early) else {
            text.truncate(before);
            return Err(AllocError);
        };
        self.bytes += len;
        Ok(())
    }
}
