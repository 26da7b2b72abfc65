//! What is known to be in a journal.
ghost use Rattle.std.specs.Prelude.{◌≡◌, ◌<◌, ◌≤◌, [], length, true, IfSome, MatchBool};
ghost use mathlib.Core.List.{IsPrefix};
ghost use Rattle.version_log.specs.Histories.{newest};

use crate::naming::Keeping;
use durable_calls::Progress;
use snapshots::Version;
use std::marker::Model;
use version_log::{Book, Front, Opened};

/// How far the journal of an epoch has come, as far as somebody knows. Contracts see the entries which it is known to have. A log that
/// the proofs alone have says that they are beginnings of one history.
pub(crate) struct Journaled<N: Keeping> {
    /// So many entries are appended.
    appended: u64,
    /// So many of them are kept.
    kept: u64,
    /// Up to this number updates may be shown.
    limit: u64,
    journaled: Front<N>,
}

impl<N: Keeping> Drop for Journaled<N> {
    fn drop(self) {
        let Journaled {
            appended: _,
            kept: _,
            limit: _,
            journaled: _,
        } = self;
    }
}

impl<N: Keeping> Model for Journaled<N> {
    ghost use Rattle.std.specs.Prelude.{List};
    ghost use Rattle.std.specs.Coded.{codes};
    ghost use Rattle.model.specs.JsonCode.{coded_members};
    ghost use Rattle.model.specs.Command.{Entry};
    ghost use Rattle.version_log.specs.Histories.{newest};
    ghost use Rattle.journal_front.specs.Keeping.{IsProgress};

    ghost Value = { List Entry };

    ghost coded = { Prim.hlevel (codes, coded_members) };

    ghost view = { λ p. newest p.journaled };

    ghost invariant = { λ p. IsProgress N.is_appended N.is_kept N.is_limit p.appended p.kept p.limit (newest p.journaled) };
}

impl<N: Keeping> Journaled<N> {
    /// No entry is appended yet, and numbers up to this limit may be shown.
    fn new(journaled: Front<N>, limit: u64) -> Journaled<N>
        requires none { journaled ≡ [] }
        requires limit { N.is_limit limit [] }
        ensures none { result ≡ [] }
    {
        Journaled {
            appended: 0,
            kept: 0,
            limit,
            journaled,
        }
    }

    /// Whether the other one is this one or a later one.
    pub(crate) fn precedes(&self, other: &Journaled<N>) -> bool
        ensures { result ≡ true → IsPrefix self.now other.now }
    {
        self.journaled.precedes(&other.journaled)
    }

    /// How many entries it is known to have.
    pub(crate) fn places(&self) -> u64
        ensures { result ≡ length self.now }
    {
        self.appended
    }

    /// Whether it is known that the journal has all entries of this version, which go on from those.
    fn has_all(&self, version: &Version) -> bool
        requires extends { IsPrefix self.now version.now.entries }
        ensures { MatchBool result (self.now ≡ version.now.entries) (length self.now < length version.now.entries) }
    {
        self.appended == version.place()
    }

    /// All entries of this version are appended. It answers whether that is known now: it is, unless another one than the holder of the
    /// pen wrote in the book.
    fn append(&mut self, book: &Book<N>, version: &Version) -> bool
        requires base { version.now.base ≡ N.base }
        requires extends { IsPrefix self.old version.now.entries }
        requires appended { N.is_appended version.now.entries }
        ensures { MatchBool result (self.new ≡ version.now.entries) (self.new ≡ self.old) }
    {
        if self.has_all(version) {
            return true;
        }
        let Some(journaled) = gone_on(&self.journaled, book, version) else {
            return false;
        };
        self.journaled = journaled;
        self.appended = version.place();
        true
    }

    /// All entries that are appended are kept, and numbers up to this limit may be shown.
    fn keep(&mut self, limit: u64)
        requires kept { N.is_kept self.old }
        requires limit { N.is_limit limit self.old }
        ensures same { self.new ≡ self.old }
    {
        self.kept = self.appended;
        self.limit = limit;
    }
}

impl<N: Keeping> Progress for Journaled<N> {
    ghost is_appended = { N.is_appended };

    ghost is_kept = { N.is_kept };

    ghost is_limit = { N.is_limit };

    ghost has_failed = { N.has_failed };

    ghost journaled = { λ p. p };

    fn again(&self) -> Journaled<N> {
        Journaled {
            appended: self.appended,
            kept: self.kept,
            limit: self.limit,
            journaled: self.journaled.again(),
        }
    }

    fn learn(&mut self, other: &Journaled<N>) {
        if !self.precedes(other) {
            return;
        }
        *self = other.again();
    }

    fn covers(&self, place: u64, number: u64, awaits: bool) -> bool {
        are_past(self.appended, self.kept, self.limit, place, number, awaits)
    }

    fn appended(&self) -> u64 {
        self.appended
    }

    fn kept(&self) -> u64 {
        self.kept
    }

    fn limit(&self) -> u64 {
        self.limit
    }
}

/// What the holder of a journal's pen knows of it. Contracts see the entries that the journal has.
pub(crate) struct Account<N: Keeping> {
    /// What is known at first: that it has no entries.
    first: Journaled<N>,
    journaled: Journaled<N>,
    book: Book<N>,
}

impl<N: Keeping> Drop for Account<N> {
    fn drop(self) {
        let Account {
            first: _,
            journaled: _,
            book: _,
        } = self;
    }
}

impl<N: Keeping> Model for Account<N> {
    ghost use Rattle.std.specs.Prelude.{◌≡◌, [], List};
    ghost use Rattle.std.specs.Coded.{codes};
    ghost use Rattle.model.specs.JsonCode.{coded_members};
    ghost use Rattle.model.specs.Command.{Entry};

    ghost Value = { List Entry };

    ghost coded = { Prim.hlevel (codes, coded_members) };

    ghost view = { λ a. a.journaled };

    ghost invariant = { λ a. a.first ≡ [] };
}

impl<N: Keeping> Account<N> {
    /// Of a journal that has no entries yet, where numbers up to this limit may be shown.
    pub(crate) fn open(opened: Opened, limit: u64) -> Account<N>
        requires named { opened ≡ N.book }
        requires limit { N.is_limit limit [] }
        ensures none { result ≡ [] }
    {
        let (book, front) = opened.named::<N>();
        let first = Journaled::new(front, limit);
        Account {
            journaled: first.again(),
            first,
            book,
        }
    }

    /// What was known at first: that it has no entries.
    pub(crate) fn at_first(&self) -> Journaled<N>
        ensures none { result ≡ [] }
    {
        self.first.again()
    }

    /// How far the journal has come.
    pub(crate) fn journaled(&self) -> &Journaled<N>
        ensures same { result.now ≡ self.now }
    {
        &self.journaled
    }

    /// How many entries the journal is known to have.
    pub(crate) fn places(&self) -> u64
        ensures { result ≡ length self.now }
    {
        self.journaled.places()
    }

    /// All entries of this version are appended. It answers whether that is known now: it is, unless another one than the holder of the
    /// pen wrote here.
    pub(crate) fn append(&mut self, version: &Version) -> bool
        requires base { version.now.base ≡ N.base }
        requires extends { IsPrefix self.old version.now.entries }
        requires appended { N.is_appended version.now.entries }
        ensures { MatchBool result (self.new ≡ version.now.entries) (self.new ≡ self.old) }
    {
        self.journaled.append(&self.book, version)
    }

    /// All entries that are appended are kept, and numbers up to this limit may be shown.
    pub(crate) fn keep(&mut self, limit: u64)
        requires kept { N.is_kept self.old }
        requires limit { N.is_limit limit self.old }
        ensures same { self.new ≡ self.old }
    {
        self.journaled.keep(limit);
    }
}

/// What is known to be in a journal once that has all entries of this version, if nobody else wrote in the book.
fn gone_on<N: Keeping>(journaled: &Front<N>, book: &Book<N>, version: &Version) -> Option<Front<N>>
    requires base { version.now.base ≡ N.base }
    requires extends { IsPrefix (newest journaled.now) version.now.entries }
    requires longer { length (newest journaled.now) < length version.now.entries }
    ensures { IfSome result (λ front. newest front ≡ version.now.entries) }
{
    let mut front = journaled.again();
    if !front.publish(book, version) {
        return None;
    }
    Some(front)
}

/// Whether these numbers of a journal are past a place and an update number.
fn are_past(appended: u64, kept: u64, limit: u64, place: u64, number: u64, awaits: bool) -> bool
    ensures appended { result ≡ true → place ≤ appended }
    ensures limit { result ≡ true → number ≤ limit }
    ensures kept { result ≡ true → awaits ≡ true → place ≤ kept }
{
    if appended < place || limit < number {
        return false;
    }
    if !awaits {
        return true;
    }
    kept >= place
}
