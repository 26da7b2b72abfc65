//! That a server takes the request of each call of a replication as that call: the texts that
//! `replicator_http` writes, read by the rules by which `http_framing` finds a request and
//! `http_request` decides it.
//!
//! There is nothing to run here: [`laws`] are the statements.
#![tactic(auto)]

pub mod laws;
