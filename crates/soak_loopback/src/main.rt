//! Servers on the loopback and their clients, in one process.
//!
//! The program takes no arguments. A write is held before it is published while another connection reads. A
//! feed that goes on is read beside the writes of another connection. A follower takes the rows of a
//! database while other sessions write. A history of one place takes no second write. A worker replicates
//! a conflict between two servers, twice. What clients were answered is printed as it came, and then the
//! exit status of each server, or how many sessions were lost.
#![tactic(auto)]

mod client;
mod command;
mod ended;
mod ends;
mod feed;
mod follow;
mod full;
mod held;
mod hold;
mod marks;
mod replication;
mod served;
mod shown;
mod terms;
mod worker;
mod write;

use crate::ends::Ends;
use crate::served::{Work, with_sessions};
use std::io;

fn main(rt: HostRuntime) -> io::Result<()> {
    println!(rt; "a write that is held while another connection reads:")?;
    let held = with_sessions(&rt, Work::Held(Ends::new(&rt)?))?;
    print!(rt; "{held}")?;
    println!(rt; "a feed beside the writes of another connection:")?;
    let fed = feed::told(&rt, Ends::new(&rt)?)?;
    print!(rt; "{fed}")?;
    println!(rt; "a follower beside the writes of other sessions:")?;
    let followed = with_sessions(&rt, Work::Followed)?;
    print!(rt; "{followed}")?;
    println!(rt; "writes to a history of one place:")?;
    let full = with_sessions(&rt, Work::Full(Ends::new(&rt)?))?;
    print!(rt; "{full}")?;
    println!(rt; "a replication between two servers:")?;
    let replicated = replication::told(&rt, Ends::new(&rt)?, Ends::new(&rt)?)?;
    print!(rt; "{replicated}")
}
