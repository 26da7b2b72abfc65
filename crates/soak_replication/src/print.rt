//! What is printed of a run.

use crate::documents::{Documents, Ids};
use crate::run::Told;
use replicator::{PeerFault, Progress};
use revision_id::RevId;
use revision_tree::{Node, RevTree};
use snapshots::Version;
use std::io;

/// Prints how a run ended, and what was asked of its ends.
pub(crate) fn print_told(rt: &impl Print, told: Told) -> io::Result<()> {
    print_ending(rt, told.ended)?;
    print_since(rt, told.since)?;
    println!(rt;
        ", bulks {}, failures {} and {}",
        told.bulks, told.source_failures, told.target_failures
    )
}

fn print_ending(rt: &impl Print, ended: Result<Progress, PeerFault>) -> io::Result<()> {
    match ended {
        Ok(Progress::Done) => print!(rt; "done"),
        Ok(Progress::Going | Progress::Checkpoint(_)) => print!(rt; "not done"),
        Err(fault) => print!(rt; "{fault}"),
    }
}

fn print_since(rt: &impl Print, since: Option<u64>) -> io::Result<()> {
    match since {
        Some(since) => print!(rt; ", changes since {since}"),
        None => print!(rt; ", no changes"),
    }
}

/// Prints how many entries the history of an end has, and its checkpoint.
pub(crate) fn print_end(
    rt: &impl Print,
    name: &str,
    ids: &Ids,
    version: &Version,
) -> io::Result<()> {
    print!(rt; "{name} at place {}, ", version.place())?;
    match version.database().locals().get(&ids.checkpoint) {
        Some(local) => println!(rt; "checkpoint 0-{} {}", local.counter, local.body.text()),
        None => println!(rt; "no checkpoint"),
    }
}

/// Prints the leaves of the document, each with its parent.
pub(crate) fn print_leaves(
    rt: &impl Print,
    name: &str,
    ids: &Ids,
    version: &Version,
) -> io::Result<()> {
    match version.database().documents().get(&ids.document) {
        Some(record) => print_tree(rt, name, record.tree()),
        None => println!(rt; "{name} has no document"),
    }
}

/// Prints how many leaves an end was sent.
pub(crate) fn print_sent(rt: &impl Print, sent: u64) -> io::Result<()> {
    println!(rt; "{sent} leaves sent")
}

/// Prints the leaves of all documents.
pub(crate) fn print_all_leaves(rt: &impl Print, name: &str, version: &Version) -> io::Result<()> {
    for (id, record) in version.database().documents().iter() {
        print_leaves_of(rt, name, id.as_str(), record.get().tree())?;
    }
    Ok(())
}

fn print_leaves_of(rt: &impl Print, name: &str, id: &str, tree: &RevTree) -> io::Result<()> {
    for node in tree.nodes() {
        if tree.is_leaf(node.rev) {
            print_leaf_of(rt, name, id, node)?;
        }
    }
    Ok(())
}

fn print_leaf_of(rt: &impl Print, name: &str, id: &str, leaf: &Node) -> io::Result<()> {
    if leaf.deleted {
        return println!(rt; "{name} has {id} {}, deleted", leaf.rev);
    }
    println!(rt; "{name} has {id} {}", leaf.rev)
}

/// Prints the ids of all documents of the target, where one of several was to come.
pub(crate) fn print_documents(
    rt: &impl Print,
    documents: Documents,
    version: &Version,
) -> io::Result<()> {
    match documents {
        Documents::Conflict => Ok(()),
        Documents::Three => print_ids(rt, version),
    }
}

fn print_ids(rt: &impl Print, version: &Version) -> io::Result<()> {
    for (id, _) in version.database().documents().iter() {
        println!(rt; "target has the document {}", id.as_str())?;
    }
    Ok(())
}

fn print_tree(rt: &impl Print, name: &str, tree: &RevTree) -> io::Result<()> {
    for node in tree.nodes() {
        if tree.is_leaf(node.rev) {
            print_leaf(rt, name, node.rev, node.parent)?;
        }
    }
    Ok(())
}

fn print_leaf(rt: &impl Print, name: &str, leaf: RevId, parent: Option<RevId>) -> io::Result<()> {
    match parent {
        Some(parent) => println!(rt; "{name} has {leaf} over {parent}"),
        None => println!(rt; "{name} has {leaf}"),
    }
}
