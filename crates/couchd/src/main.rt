//! The program `couchd`: a replicating document store, served over HTTP.
#![tactic(auto)]

mod continuous;
mod held;
mod journaled;
mod pair;
mod patient;
mod progress;
mod reaching;
mod repair;
mod replication;
mod serving;
mod watching;

use command_line::{Run, given_arguments, read_arguments, refuse_bytes};
use held::Held;
use http_front::{run_dump, run_once};
use std::io;
use std::process::ExitCode;
use streams::{Sink, Stream};

/// The status of arguments that can't be parsed.
const UNREADABLE_ARGUMENTS: u8 = 2;

fn main(rt: HostRuntime) -> io::Result<ExitCode> {
    let Some(arguments) = given_arguments(&rt)? else {
        return Ok(refuse_bytes(rt.alloc()).tell(&rt, UNREADABLE_ARGUMENTS));
    };
    match read_arguments(rt.alloc(), arguments.as_slice()) {
        Ok(Run::Once) => {
            let Ok(held) = Held::new(rt.alloc(), io::writer(&rt)) else {
                return Ok(ExitCode::FAILURE);
            };
            let mut reader = Stream::new(held.beside(rt.reader()));
            let mut writer = Stream::new(held.end());
            let status = run_once(&mut reader, &mut writer, &rt);
            if held.release().is_err() {
                return Ok(unwritten(&rt));
            }
            Ok(ended(&rt, &writer, status))
        }
        Ok(Run::Dump) => {
            let mut reader = Stream::new(rt.reader());
            let mut writer = Stream::new(io::writer(&rt));
            let status = run_dump(&mut reader, &mut writer, &rt);
            Ok(ended(&rt, &writer, status))
        }
        Ok(Run::Serve(mut serving)) => {
            let policy = serving.browsers.take().map(serving::policy_of);
            serving::serve(&rt, &rt, &serving, policy.as_ref())
        }
        Ok(Run::Repair(repairing)) => Ok(repair::repair(&rt, repairing.folder.as_str())),
        Ok(Run::Replicate(replicating)) => Ok(replication::replicate(&rt, &replicating)),
        Err(fault) => Ok(fault.tell(&rt, UNREADABLE_ARGUMENTS)),
    }
}

/// The end of a run that answered this status, and whose writes to standard output may have failed.
fn ended<W: Sink>(rt: &HostRuntime, output: &W, status: u8) -> ExitCode {
    if output.failures() > 0 {
        return unwritten(rt);
    }
    ExitCode::from(status)
}

/// The end of a run whose standard output can't be written, which is said.
pub(crate) fn unwritten(rt: &HostRuntime) -> ExitCode {
    let _printed = eprintln!(rt; "couchd: standard output can't be written");
    ExitCode::FAILURE
}
