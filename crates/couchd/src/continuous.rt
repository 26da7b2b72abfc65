//! `couchd replicate --continuous`: one run after another, each when there are changes.

use crate::pair::{NotRun, Pair};
use replicator_run::Report;
use std::process::ExitCode;
use std::thread;
use std::time::Duration;

/// The longest pause after a run that failed, in seconds.
const LONGEST_PAUSE: u64 = 60;

/// Makes one run after another, until a signal ends the program: where there are no more changes, the next is made when
/// there are; and after one that failed, or didn't begin, after 1 second, and then 2, 4 and so on to 60.
pub(crate) fn replicate_continuously(rt: &HostRuntime, pair: &Pair<'_>) -> ExitCode {
    let mut pause = 1;
    for _run in 0..u64::MAX {
        pair.forgive();
        let ended = pair.run();
        pair.clear();
        if is_done(&ended) {
            pause = 1;
            pair.wait();
            continue;
        }
        if has_written(&ended) {
            pause = 1;
        }
        say(rt, pair, &ended, pause);
        thread::sleep(rt, Duration::from_secs(pause));
        pause = pause.saturating_mul(2).min(LONGEST_PAUSE);
    }
    ExitCode::FAILURE
}

/// Whether all changes came to the target.
fn is_done(ended: &Result<Report, NotRun>) -> bool {
    match ended {
        Ok(report) => report.exit_status() == 0,
        Err(_) => false,
    }
}

/// Whether documents came to the target.
fn has_written(ended: &Result<Report, NotRun>) -> bool {
    match ended {
        Ok(report) => report.documents_written > 0,
        Err(_) => false,
    }
}

/// Says why a run failed, or didn't begin, and when the next is made.
fn say(rt: &HostRuntime, pair: &Pair<'_>, ended: &Result<Report, NotRun>, pause: u64) {
    match ended {
        Ok(report) => say_report(rt, pair, report),
        Err(why) => pair.say(why),
    }
    let _printed = eprintln!(rt; "couchd: the next run begins in {pause} s");
}

/// Says how a run failed, and at which request.
fn say_report(rt: &HostRuntime, pair: &Pair<'_>, report: &Report) {
    if let Some(why) = pair.given_up() {
        pair.say_given_up(why, report);
        return;
    }
    if report.has_failed() {
        pair.say_unavailable();
    }
    let ending = report.ending();
    let _printed = match pair.last() {
        Some((end, asked)) => {
            eprintln!(rt;
                "couchd: {ending}, at {} of the {}",
                asked.name(),
                end.name()
            )
        }
        None => eprintln!(rt; "couchd: {ending}"),
    };
}
