//! The log of publications. It is in the proofs alone: what is stored is its length.
ghost use Rattle.std.specs.Prelude.{◌≡◌, ◌<◌, ◌≤◌, ◌++◌, ◌∷◌, [], length, MatchBool};
ghost use mathlib.Core.List.{IsPrefix};
ghost use Rattle.version_log.specs.Histories.{newest, Grows};
ghost use Rattle.version_log.specs.Rules.{head_of};

use commands::Entry;
use logbook::{Gain, Offer, Plain, Play, Rule, Seen, Start, Word};
use snapshots::Version;
use std::collections::LinkedList;
use std::marker::{Brand, Model, PhantomData};

/// What the log holds of each publication. Only its value counts, which is a list of entries.
pub type History = LinkedList<Entry>;

/// As many were published as the word says, and each published history lengthens the one before.
pub struct Law;

impl Rule<History, u64> for Law {
    ghost use Rattle.std.specs.Prelude.{[]};
    ghost use base.Fml.{ftrue};
    ghost use Rattle.version_log.specs.Rules.{IsKept};

    ghost holds = { λ cells log. IsKept cells log };

    ghost first = { [] };

    ghost hinted = { λ n log. Unit {0} };

    ghost shows = { λ log. [] };

    ghost keeps = { λ names log. ftrue };

    ghost moves = { λ ask before after answer. Unit {0} };
}

/// Callers trade nothing.
pub struct Nothing;

impl Gain<History, u64> for Nothing {
    ghost use base.Fml.{ftrue};

    ghost after = { λ names about answer. ftrue };
}

/// The step that adds a publication.
pub struct Add;

impl Play<History, u64> for Add {
    ghost use Rattle.version_log.specs.Rules.{Adds};

    ghost then = { Adds };
}

impl Plain<Version, History, u64> for Add {
    ghost use Rattle.std.specs.Prelude.{None};

    ghost ask = { λ version. version.entries };

    ghost state = { λ version. None };
}

/// Which store it is, and the base that its history names. A program picks it once its book is open.
pub trait Naming {
    ghost use Rattle.logbook.specs.Pages.{Book};
    ghost use Rattle.std.specs.Prelude.{Option};
    ghost use Rattle.model.specs.Database.{Database};

    ghost book: { Book };

    ghost base: { Option Database };
}

impl Naming for Brand {
    ghost use Rattle.std.specs.Prelude.{None};

    ghost book = { record { number = 0; log_name = 0; cells_name = 0 } };

    ghost base = { None };
}

/// A book of no publications, which has no name yet.
pub struct Opened {
    head: Word<History, u64, Law>,
    seen: Seen<History, u64, Law>,
}

impl Model for Opened {
    ghost use Rattle.std.specs.Prelude.{◌≡◌, []};
    ghost use Rattle.logbook.specs.Pages.{Book};
    ghost use Rattle.version_log.specs.Rules.{head_of};

    ghost Value = { Book };

    ghost view = { λ o. o.seen.book };

    ghost invariant = { λ o. (o.seen.log ≡ []) × (o.head ≡ head_of o.seen.book) };
}

impl Opened {
    /// A new, empty book.
    pub fn new() -> Opened {
        let (seen, mut first, _second) = Seen::open(Start::alone(), 0, 0);
        Opened {
            head: Word::tracked(0, &mut first),
            seen,
        }
    }

    /// The book under its name, with what is in it: nothing.
    pub fn named<J: Naming>(self) -> (Book<J>, Front<J>)
        requires name { self ≡ J.book }
        ensures none { result.1 ≡ [] }
    {
        let Opened { head, seen } = self;
        let book = Book {
            head,
            of: PhantomData,
        };
        (book, Front::from_parts(0, seen))
    }
}

/// The number of publications of the store `J`, for the one that publishes.
#[derive(Drop)]
pub struct Book<J: Naming> {
    head: Word<History, u64, Law>,
    of: PhantomData<J>,
    ghost head_is: { head ≡ head_of J.book },
}

/// The first publications of the store `J`. Contracts see the published histories.
pub struct Front<J: Naming> {
    count: u64,
    seen: Seen<History, u64, Law>,
    of: PhantomData<J>,
}

impl<J: Naming> Drop for Front<J> {
    fn drop(self) {
        let Front {
            count: _,
            seen: _,
            of: _,
        } = self;
    }
}

impl<J: Naming> Model for Front<J> {
    ghost use Rattle.std.specs.Prelude.{◌≡◌, List, length};
    ghost use Rattle.std.specs.Coded.{codes};
    ghost use Rattle.model.specs.JsonCode.{coded_members};
    ghost use Rattle.model.specs.Command.{Entry};
    ghost use Rattle.version_log.specs.Histories.{Grows};

    ghost Value = { List (List Entry) };

    ghost coded = { Prim.hlevel (codes, coded_members) };

    ghost view = { λ f. f.seen.log };

    ghost invariant = { λ f. (f.count ≡ length f.seen.log) × (f.seen.book ≡ J.book) × Grows J.base f.seen.log };
}

impl<J: Naming> Front<J> {
    pub(crate) fn from_parts(count: u64, seen: Seen<History, u64, Law>) -> Front<J>
        requires count { count ≡ length seen.log }
        requires name { seen.book ≡ J.book }
        requires grows { Grows J.base seen.log }
        ensures log { result ≡ seen.log }
    {
        Front {
            count,
            seen,
            of: PhantomData,
        }
    }

    pub(crate) fn seen(&self) -> Seen<History, u64, Law>
        ensures name { result.book ≡ J.book }
        ensures log { result.log ≡ self.now }
    {
        self.seen.again()
    }

    /// How many publications there were. Each added an entry at least.
    pub fn count(&self) -> u64
        ensures count { result ≡ length self.now }
        ensures few { length self.now ≤ length (newest self.now) }
        ensures grows { Grows J.base self.now }
    {
        self.count
    }

    /// The same publications.
    pub fn again(&self) -> Front<J>
        ensures same { result ≡ self.now }
    {
        Front {
            count: self.count,
            seen: self.seen.again(),
            of: PhantomData,
        }
    }

    /// Whether the other one goes on from this one. Otherwise this one goes on from the other.
    pub fn precedes(&self, other: &Front<J>) -> bool
        ensures published { MatchBool result (IsPrefix self.now other.now) (IsPrefix other.now self.now) }
        ensures histories { MatchBool result (IsPrefix (newest self.now) (newest other.now)) (IsPrefix (newest other.now) (newest self.now)) }
    {
        let mut both = self.seen.again();
        both.learn(&other.seen);
        self.count <= other.count
    }

    /// Publishes the version's history, and says whether it did. It did not where others were
    /// published already.
    pub fn publish(&mut self, book: &Book<J>, version: &Version) -> bool
        requires base { version.now.base ≡ J.base }
        requires extends { IsPrefix (newest self.old) version.now.entries }
        requires longer { length (newest self.old) < length version.now.entries }
        ensures published { MatchBool result (self.new ≡ self.old ++ version.now.entries ∷ []) (self.new ≡ self.old) }
    {
        // Its history is legal, and has at most 4294967295 entries.
        let _recalled = version.place();
        let count = self.count;
        let next = count + 1;
        let mut seen = self.seen.again();
        let mut offer: Offer<History, u64, Law, Nothing> = seen.plain::<Nothing, Version, Add>(
            version,
        );
        let mut pen = seen.no_pen();
        let found = book
            .head
            .compare_exchange::<Add, Nothing>(count, next, &mut seen, &mut offer, &mut pen);
        if found != count {
            return false;
        }
        self.seen = seen;
        self.count = next;
        true
    }
}
