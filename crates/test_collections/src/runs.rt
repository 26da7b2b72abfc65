//! Rows of runs, and of older ones that are kept.

use revision_id::RevId;
use revision_runs::{Run, Runs, cleared, rooted};
use std::alloc::{AllocError, Global};
use std::test::Fail;

#[derive(Drop)]
struct Kept {
    runs: Runs,
    kept: Runs,
}

/// What comes of each statement, and `;` after it.
pub(crate) fn told(alloc: Global, row: &str) -> Result<String, Fail> {
    let mut text = String::new(alloc);
    let mut runs = Kept {
        runs: Runs::new(alloc),
        kept: Runs::new(alloc),
    };
    for statement in row.split(';') {
        let mut piece = String::new(alloc);
        runs.perform(alloc, statement, &mut piece)?;
        write!(text, "{};", piece.trim())?;
    }
    Ok(text)
}

impl Kept {
    /// Does what a statement says, and reports what comes of it.
    fn perform(&mut self, alloc: Global, statement: &str, text: &mut String) -> Result<(), Fail> {
        let words: Vec<&str> = statement.split_whitespace().collect(alloc)?;
        match words.as_slice() {
            ["keep"] => self.kept = self.runs.share()?,
            ["back"] => self.runs = self.kept.share()?,
            ["with", top, bottom, low] => self.put(top, None, bottom, low)?,
            ["with", top, bottom, low, fork] => {
                self.put(top, Some(RevId::parse(fork)?), bottom, low)?;
            }
            ["root", top] => self.runs = rooted(self.runs.share()?, RevId::parse(top)?)?,
            ["without", top] => self.runs = self.runs.share()?.without(RevId::parse(top)?)?,
            ["clear", top] => self.runs = cleared(self.runs.share()?, RevId::parse(top)?)?,
            words => push_read(text, &self.runs, words)?,
        }
        Ok(())
    }

    fn put(&mut self, top: &str, fork: Option<RevId>, bottom: &str, low: &str) -> Result<(), Fail> {
        let run = Run {
            fork,
            bottom: RevId::parse(bottom)?,
            low: low.parse::<u32>()?,
        };
        self.runs = self.runs.share()?.with(RevId::parse(top)?, run)?;
        Ok(())
    }
}

/// What the runs say of themselves.
fn push_read(text: &mut String, runs: &Runs, words: &[&str]) -> Result<(), Fail> {
    match words {
        ["get", top] => push_run(text, runs.get(RevId::parse(top)?))?,
        ["ending_at", bottom] => push_top(text, runs.ending_at(RevId::parse(bottom)?))?,
        ["nearest_under", fork] => push_top(text, runs.nearest_under(RevId::parse(fork)?))?,
        ["deepest"] => push_top(text, runs.deepest())?,
        _ => return Err("a read of runs".into()),
    }
    Ok(())
}

fn push_run(text: &mut String, run: Option<Run>) -> Result<(), AllocError> {
    let Some(run) = run else {
        return text.push_str("none");
    };
    write!(text, "to {} low {}", run.bottom, run.low)?;
    match run.fork {
        Some(fork) => write!(text, " under {fork}"),
        None => Ok(()),
    }
}

fn push_top(text: &mut String, top: Option<RevId>) -> Result<(), AllocError> {
    match top {
        Some(top) => write!(text, "{top}"),
        None => text.push_str("none"),
    }
}
