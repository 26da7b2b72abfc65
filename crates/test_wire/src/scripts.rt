//! Inputs, and how they come in pieces.

use json_profile::{Json, MAX_NESTING, read};
use std::alloc::Global;
use std::test::Fail;
use streams::scripted::Step;

/// The steps that a word lists, with `,` between: the most bytes of a call, or `fail`. Of `-` there are
/// none.
pub(crate) fn steps(alloc: Global, word: &str) -> Result<Vec<Step>, Fail> {
    let mut steps = Vec::new(alloc);
    if word == "-" {
        return Ok(steps);
    }
    for step in word.split(',') {
        steps.push(step_of(step)?)?;
    }
    Ok(steps)
}

fn step_of(word: &str) -> Result<Step, Fail> {
    if word == "fail" {
        return Ok(Step::Fail);
    }
    Ok(Step::AtMost(word.parse::<usize>()?))
}

/// The value of a JSON text.
pub(crate) fn json(alloc: Global, text: &str) -> Result<Json, Fail> {
    Ok(read(alloc, text.as_bytes(), MAX_NESTING)?)
}
