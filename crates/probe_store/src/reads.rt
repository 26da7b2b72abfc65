//! Every read of a version, and copies of its entries, none of which takes memory.

use commands::Copied;
use snapshots::Version;
use std::alloc::Global;
use std::io;

/// Prints what each read finds.
pub(crate) fn print_all(rt: &HostRuntime, version: &Version) -> io::Result<()> {
    print_history(rt, version)?;
    print_documents(rt, version)?;
    print_changes(rt, version)?;
    print_purges(rt, version)?;
    print_shares(rt, version)
}

fn print_history(rt: &HostRuntime, version: &Version) -> io::Result<()> {
    println!(rt; "place {}", version.place())?;
    println!(rt; "entries {}", count_entries(version))?;
    println!(rt; "entries copied {}", count_copied(rt.alloc(), version))?;
    println!(rt; "next call {}", version.next_call(0))?;
    println!(rt; "revs limit {}", version.database().revs_limit())
}

fn print_documents(rt: &HostRuntime, version: &Version) -> io::Result<()> {
    let counts = version.database().counts();
    println!(rt;
        "documents {} {}",
        version.database().documents().len(),
        counts.doc_count
    )?;
    println!(rt; "found {}", count_found(version))?;
    println!(rt; "first of the rest {}", count_first(version))?;
    println!(rt; "local documents {}", count_locals(version))
}

fn print_changes(rt: &HostRuntime, version: &Version) -> io::Result<()> {
    println!(rt;
        "update seq {}",
        version.database().documents().update_seq()
    )?;
    println!(rt; "changes {}", version.database().changed_since(0).count())?;
    println!(rt;
        "changes counted {}",
        version.database().count_changed_since(0)
    )
}

fn print_purges(rt: &HostRuntime, version: &Version) -> io::Result<()> {
    println!(rt; "purge seq {}", version.database().purges().purge_seq())?;
    println!(rt; "purges {}", version.database().purges().above(0).count())?;
    println!(rt;
        "purges counted {}",
        version.database().purges().count_above(0)
    )?;
    println!(rt; "touched {}", version.touched_since(0, 0).unwrap_or(0))
}

fn print_shares(rt: &HostRuntime, version: &Version) -> io::Result<()> {
    println!(rt; "shared {}", is_shared(version))?;
    println!(rt; "records {}", version.records().is_ok())
}

fn is_shared(version: &Version) -> bool {
    version.share().is_ok()
}

fn count_entries(version: &Version) -> u64 {
    let mut found: u64 = 0;
    for place in 0..version.place() {
        if version.entry(place.saturating_add(1)).is_some() {
            found = found.saturating_add(1);
        }
    }
    found
}

/// How many entries can be copied.
fn count_copied(alloc: Global, version: &Version) -> u64 {
    let mut copied: u64 = 0;
    for place in 0..version.place() {
        if let Some(entry) = version.entry(place.saturating_add(1)) {
            if entry.copy(alloc).is_ok() {
                copied = copied.saturating_add(1);
            }
        }
    }
    copied
}

/// How many documents are found by their ids.
fn count_found(version: &Version) -> u64 {
    let mut found: u64 = 0;
    for (id, _) in version.database().documents().iter() {
        if version.database().documents().get(id).is_some() {
            found = found.saturating_add(1);
        }
    }
    found
}

/// How many documents are the first of those from their ids on.
fn count_first(version: &Version) -> u64 {
    let mut found: u64 = 0;
    for (id, _) in version.database().documents().iter() {
        if let Some((first, _)) = version.database().documents().range_from(id).next() {
            if first == id {
                found = found.saturating_add(1);
            }
        }
    }
    found
}

/// How many documents have a local one of their id.
fn count_locals(version: &Version) -> u64 {
    let mut found: u64 = 0;
    for (id, _) in version.database().documents().iter() {
        if version.database().locals().get(id).is_some() {
            found = found.saturating_add(1);
        }
    }
    found
}
