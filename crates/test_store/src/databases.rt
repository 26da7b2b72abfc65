//! Rows of commands and queries, one after another, and of a follower of the changes, in one epoch or in several.

use crate::answers::push_rows;
use crate::changes::{act, command};
use crate::epochs::reopened;
use crate::questions::{ids_named, push_asked, style};
use crate::reads::push_read;
use crate::replies::push_last_reply;
use changes_feed::Follower;
use model::Style;
use snapshots::Version;
use std::alloc::Global;
use std::mem;
use std::test::Fail;

/// What is there, what was there before the last command or the end of the last epoch, and a follower.
#[derive(Drop)]
struct Store {
    now: Version,
    before: Version,
    follower: Follower,
}

/// What comes of each statement, and `;` after it.
pub(crate) fn told(alloc: Global, row: &str) -> Result<String, Fail> {
    let mut text = String::new(alloc);
    let mut store = Store::new(alloc);
    for statement in row.split(';') {
        let mut piece = String::new(alloc);
        store.perform(alloc, statement, &mut piece)?;
        write!(text, "{};", piece.trim())?;
    }
    Ok(text)
}

impl Store {
    fn new(alloc: Global) -> Store {
        Store {
            now: Version::empty(alloc),
            before: Version::empty(alloc),
            follower: Follower::new(0, Style::MainOnly),
        }
    }

    /// Does what a statement says, and reports what comes of it. A query follows `?`, a read of what is there or of what was
    /// follows `now` or `before`, and a command may follow `by` and its session, which is else 0. `reopen` begins the next
    /// epoch.
    fn perform(&mut self, alloc: Global, statement: &str, text: &mut String) -> Result<(), Fail> {
        let words: Vec<&str> = statement.split_whitespace().collect(alloc)?;
        match words.as_slice() {
            ["?", query @ ..] => push_asked(text, alloc, &self.now, query),
            ["now", read @ ..] => push_read(text, &self.now, read),
            ["before", read @ ..] => push_read(text, &self.before, read),
            ["follow", since, style] => self.follow(since, style, text),
            ["follow_some", texts, since, style] => {
                self.follow_some(alloc, texts, since, style, text)
            }
            ["pending"] => self.pending(text),
            ["next", limit] => self.next(alloc, limit.parse::<u64>()?, text),
            ["reopen"] => self.reopen(text),
            ["by", session, words @ ..] => self.write(alloc, session.parse::<u16>()?, words, text),
            words => self.write(alloc, 0, words, text),
        }
    }

    /// Does a command, and reports its reply.
    fn write(
        &mut self,
        alloc: Global,
        session: u16,
        words: &[&str],
        text: &mut String,
    ) -> Result<(), Fail> {
        let command = command(alloc, words)?;
        let next = act(&self.now, session, &command)?;
        push_last_reply(text, &next)?;
        self.before = mem::replace(&mut self.now, next);
        Ok(())
    }

    /// Ends the epoch, and reports what the next one begins from.
    fn reopen(&mut self, text: &mut String) -> Result<(), Fail> {
        let next = reopened(&self.now, text)?;
        self.before = mem::replace(&mut self.now, next);
        Ok(())
    }

    /// Begins to follow the changes above a number, and reports where the follower is.
    fn follow(&mut self, since: &str, word: &str, text: &mut String) -> Result<(), Fail> {
        self.follower = Follower::new(since.parse::<u64>()?, style(word)?);
        write!(text, "at {}", self.follower.cursor())?;
        Ok(())
    }

    /// Begins to follow the changes above a number of the documents that these texts name.
    fn follow_some(
        &mut self,
        alloc: Global,
        texts: &str,
        since: &str,
        word: &str,
        text: &mut String,
    ) -> Result<(), Fail> {
        let ids = ids_named(alloc, texts)?;
        self.follower = Follower::filtered(since.parse::<u64>()?, style(word)?, ids);
        write!(text, "at {}", self.follower.cursor())?;
        Ok(())
    }

    /// How many rows are above the follower's cursor.
    fn pending(&self, text: &mut String) -> Result<(), Fail> {
        write!(text, "{}", self.follower.pending(&self.now))?;
        Ok(())
    }

    /// The follower's next rows, and where it is then.
    fn next(&mut self, alloc: Global, limit: u64, text: &mut String) -> Result<(), Fail> {
        push_rows(text, &self.follower.next(alloc, &self.now, limit)?)?;
        write!(text, " at {}", self.follower.cursor())?;
        Ok(())
    }
}
