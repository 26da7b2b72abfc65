//! A file in memory that fails where it is told to, for tests of journals and what is over them.
ghost use Rattle.std.specs.Prelude.{◌≡◌, ◌<◌, [], length, Some, MatchResult};
ghost use Rattle.streams.specs.Counts.{CountRose, CountsFailure};
ghost use Rattle.journal.specs.Files.{Takes, TakesSome};

use crate::appended::Appended;
use std::alloc::Global;
use streams::Failed;

/// What one append or sync does.
#[derive(Clone, Copy)]
pub enum Step {
    /// It does what it should.
    Good,
    /// It fails. An append takes at most so many bytes before, and not all of its own.
    FailAfter(usize),
}

/// A file in memory. Each append and each sync is done by the next step of the script, and as it should be where there is
/// none left. Where there is no room for more, an append or a sync fails.
#[derive(Drop)]
pub struct ScriptedFile<'a> {
    alloc: Global,
    taken: Vec<u8>,
    covered: Vec<u8>,
    failures: u64,
    script: &'a [Step],
}

impl<'a> ScriptedFile<'a> {
    /// An empty file.
    pub fn new(alloc: Global, script: &'a [Step]) -> ScriptedFile<'a>
        ensures taken { result.taken.items ≡ [] }
        ensures covered { result.covered.items ≡ [] }
        ensures failures { result.failures ≡ 0 }
        ensures script { result.script.now ≡ script.now }
    {
        ScriptedFile {
            alloc,
            taken: Vec::new(alloc),
            covered: Vec::new(alloc),
            failures: 0,
            script,
        }
    }

    /// The bytes that it has taken.
    pub fn taken(&self) -> &[u8]
        ensures { result.now ≡ self.now.taken.items }
    {
        &self.taken
    }

    /// Those of them that the last good sync covered.
    pub fn covered(&self) -> &[u8]
        ensures { result.now ≡ self.now.covered.items }
    {
        &self.covered
    }

    /// How many appends and syncs have failed.
    pub fn failures(&self) -> u64
        ensures { result ≡ self.now.failures }
    {
        self.failures
    }
}

/// The next step of a script.
fn next_step(script: &mut &[Step]) -> Step {
    match script.split_first() {
        Some((step, rest)) => {
            let step = *step;
            *script = rest;
            step
        }
        None => Step::Good,
    }
}

/// Counts a failure.
fn fail(failures: &mut u64) -> Failed
    ensures { CountRose failures.old failures.new }
{
    *failures = failures.saturating_add(1);
    Failed
}

impl Appended for ScriptedFile<'_> {
    ghost use Rattle.std.specs.Prelude.{Some, ⊤, length, refl};

    ghost taken = { λ f. Some f.taken.items };

    ghost covered = { λ f. Some f.covered.items };

    ghost size = { λ f. length f.taken.items };

    ghost synced_size = { λ f. length f.covered.items };

    ghost failed = { λ f. f.failures };

    ghost told = { λ _. ⊤ };

    ghost said = { λ _. ⊤ };

    fn append(&mut self, bytes: &[u8]) -> Result<(), Failed> {
        if bytes.is_empty() {
            return Ok(());
        }
        match next_step(&mut self.script) {
            Step::Good => append_all(&mut self.taken, &mut self.failures, bytes),
            Step::FailAfter(most) => {
                append_some(&mut self.taken, most, bytes);
                Err(fail(&mut self.failures))
            }
        }
    }

    fn sync(&mut self) -> Result<(), Failed> {
        match next_step(&mut self.script) {
            Step::Good => cover_all(
                self.alloc,
                &self.taken,
                &mut self.covered,
                &mut self.failures,
            ),
            Step::FailAfter(_) => Err(fail(&mut self.failures)),
        }
    }

    ghost counted = { λ f. refl };

    ghost counted_synced = { λ f. refl };
}

/// Appends all the bytes, or none where there is no room.
fn append_all(taken: &mut Vec<u8>, failures: &mut u64, bytes: &[u8]) -> Result<(), Failed>
    requires { 0 < length bytes.now }
    ensures written { Takes (Some taken.old.items) (Some taken.new.items) result bytes.now }
    ensures failures { CountsFailure failures.old failures.new result }
{
    match taken.extend_from_slice(bytes) {
        Ok(()) => Ok(()),
        Err(_) => Err(fail(failures)),
    }
}

/// Appends a beginning of the bytes, not all: at most so many, or none where there is no room.
fn append_some(taken: &mut Vec<u8>, most: usize, bytes: &[u8])
    requires { 0 < length bytes.now }
    ensures { TakesSome (Some taken.old.items) (Some taken.new.items) bytes.now }
{
    let count = most.min(bytes.len() - 1);
    let _refused = taken.extend_from_slice(&bytes[..count]);
}

/// Covers all that was taken, or no more than before where there is no room.
fn cover_all(
    alloc: Global,
    taken: &[u8],
    covered: &mut Vec<u8>,
    failures: &mut u64,
) -> Result<(), Failed>
    ensures covered { MatchResult result (λ _. covered.new.items ≡ taken.now) (λ _. covered.new ≡ covered.old) }
    ensures failures { CountsFailure failures.old failures.new result }
{
    match Vec::from_slice(alloc, taken) {
        Ok(copy) => {
            *covered = copy;
            Ok(())
        }
        Err(_) => Err(fail(failures)),
    }
}
