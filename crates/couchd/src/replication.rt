//! `couchd replicate`: the changes of one database are brought to another over a connection to each.

use crate::continuous::replicate_continuously;
use crate::pair::Pair;
use crate::unwritten;
use command_line::Replicating;
use replicator_run::Report;
use std::process::ExitCode;
use std::thread;
use std::time::Duration;

/// How many seconds pass before a run is made again that came no further.
const PAUSES: [u64; 4] = [0, 1, 2, 4];

/// Replicates between the two ends that were given, and prints what came of it, or goes on without end. What fails
/// before the first request is named on standard error.
pub(crate) fn replicate(rt: &HostRuntime, replicating: &Replicating) -> ExitCode {
    let Ok(pair) = Pair::new(rt, replicating) else {
        let _printed = eprintln!(rt; "couchd: no memory");
        return ExitCode::FAILURE;
    };
    if replicating.continuous {
        return replicate_continuously(rt, &pair);
    }
    match pair.run() {
        Ok(first) => {
            let report = go_on(rt, &pair, first);
            pair.clear();
            say_why(&pair, &report);
            end(rt, &report)
        }
        Err(why) => {
            pair.say(&why);
            ExitCode::FAILURE
        }
    }
}

/// Makes further runs while an end fails, at once after one that wrote something, and else after a pause, and answers
/// what came of all of them. It ends after the last pause, or where an end was given up or isn't reached.
fn go_on(rt: &HostRuntime, pair: &Pair<'_>, first: Report) -> Report {
    let mut all = first;
    let mut last = first;
    let mut pauses = PAUSES.iter();
    for _run in 0..u64::MAX {
        if last.documents_written > 0 {
            pauses = PAUSES.iter();
        }
        if !last.has_failed() || pair.given_up().is_some() {
            return all;
        }
        let Some(pause) = pauses.next() else {
            return all;
        };
        thread::sleep(rt, Duration::from_secs(*pause));
        let Ok(next) = pair.run() else {
            return all;
        };
        last = next;
        all = all.then(&next);
    }
    all
}

/// Says why an end was given up, or that it couldn't serve what was asked, where the last run ended so.
fn say_why(pair: &Pair<'_>, report: &Report) {
    if let Some(why) = pair.given_up() {
        pair.say_given_up(why, report);
    } else if report.has_failed() {
        pair.say_unavailable();
    }
}

/// Prints what came of a replication.
fn end(rt: &HostRuntime, report: &Report) -> ExitCode {
    let Ok(()) = println!(rt;
        "documents read {}, written {}: {}",
        report.documents_read,
        report.documents_written,
        report.ending()
    ) else {
        return unwritten(rt);
    };
    ExitCode::from(report.exit_status())
}
