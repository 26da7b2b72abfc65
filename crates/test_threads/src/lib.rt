//! Tests of sessions on threads.
#![tactic(auto)]

#[cfg(test)]
mod tests;
