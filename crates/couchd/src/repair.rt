//! `couchd repair`: a folder whose newest file is damaged is made one that a server starts from.

use crate::unwritten;
use journal::{Cut, Folder, Repaired};
use std::io;
use std::process::ExitCode;

/// Repairs a folder, and says what was cut and where its history ends; or why it can't be done.
pub(crate) fn repair(rt: &HostRuntime, path: &str) -> ExitCode {
    let folder = match Folder::lock(rt, path) {
        Ok(folder) => folder,
        Err(fault) => {
            let _printed = eprintln!(rt; "couchd: {path}: {fault}");
            return ExitCode::FAILURE;
        }
    };
    match folder.repair(rt) {
        Ok(repaired) => match say_repaired(rt, &repaired) {
            Ok(()) => ExitCode::SUCCESS,
            Err(_) => unwritten(rt),
        },
        Err(fault) => {
            let _printed = eprintln!(rt; "couchd: {path}: {fault}");
            ExitCode::FAILURE
        }
    }
}

/// Says what a repair did.
fn say_repaired(rt: &HostRuntime, repaired: &Repaired) -> io::Result<()> {
    for cut in repaired.cuts.iter() {
        say_cut(rt, *cut)?;
    }
    if repaired.cuts.is_empty() {
        println!(rt; "there is nothing to repair")?;
    }
    match repaired.epoch {
        Some(epoch) => println!(rt;
            "the history goes up to place {} of {epoch:010}.dump",
            repaired.places
        ),
        None => println!(rt; "no file is left, so a server begins with an empty database"),
    }
}

/// Says what was cut.
fn say_cut(rt: &HostRuntime, cut: Cut) -> io::Result<()> {
    let Cut {
        epoch,
        place,
        bytes,
    } = cut;
    if place == 0 {
        return println!(rt;
            "{epoch:010}.dump: its first line is damaged; all {bytes} bytes are in {epoch:010}.cut"
        );
    }
    println!(rt;
        "{epoch:010}.dump: the entry at place {place} is damaged; {bytes} bytes from there on are in {epoch:010}.cut"
    )
}
