//! The program `replay`: an audit of the histories of a document store, and what they end with.
#![tactic(auto)]

use command_line::given_arguments;
use command_line::replay::{Run, read_arguments, refuse_bytes};
use replay_cli::{run_base, run_check};
use std::io;
use std::process::ExitCode;
use streams::{Sink, Stream};

/// The status of arguments that can't be parsed.
const UNREADABLE_ARGUMENTS: u8 = 5;

fn main(rt: HostRuntime) -> io::Result<ExitCode> {
    let Some(arguments) = given_arguments(&rt)? else {
        return Ok(refuse_bytes(rt.alloc()).tell(&rt, UNREADABLE_ARGUMENTS));
    };
    match read_arguments(rt.alloc(), arguments.as_slice()) {
        Ok(Run::Check) => {
            let mut reader = Stream::new(rt.reader());
            let mut writer = Stream::new(io::writer(&rt));
            let status = run_check(&mut reader, &mut writer, &rt);
            Ok(ended(&rt, &writer, status))
        }
        Ok(Run::Base { raised }) => {
            let mut reader = Stream::new(rt.reader());
            let mut writer = Stream::new(io::writer(&rt));
            let status = run_base(&mut reader, &mut writer, &rt, raised);
            Ok(ended(&rt, &writer, status))
        }
        Err(fault) => Ok(fault.tell(&rt, UNREADABLE_ARGUMENTS)),
    }
}

/// The end of a run that answered this status. Where its standard output can't be written, that is said.
fn ended<W: Sink>(rt: &HostRuntime, output: &W, status: u8) -> ExitCode {
    if output.failures() > 0 {
        let _printed = eprintln!(rt; "replay: standard output can't be written");
        return ExitCode::FAILURE;
    }
    ExitCode::from(status)
}
