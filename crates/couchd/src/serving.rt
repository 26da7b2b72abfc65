//! `couchd serve`: what it listens on, on which terms it serves, and what it says.
ghost use Rattle.std.specs.Prelude.{◌≡◌, ◌≤◌, true, is_some};

use crate::{journaled, unwritten};
use command_line::{Allowed as Listed, BrowserOptions, Serving};
use http_front::{Allowed, Entrance, Lines, Pace, Policy, Terms, Watch, run_server};
use std::io;
use std::net::{Ipv4Addr, SocketAddr, SocketAddrV4};
use std::process::ExitCode;
use std::sync::Wait;
use std::thread::Threads;
use std::time::{Clock, Duration};

/// Says on standard error what an operator is to know.
#[derive(Clone, Copy, Drop)]
pub(crate) struct Notices<'r> {
    pub(crate) rt: &'r HostRuntime,
    /// Whether the folder of the journal is only read.
    pub(crate) reads_only: bool,
}

impl Lines for Notices<'_> {
    /// One write, so that the lines of workers don't mix.
    fn write_line(&self, line: &str) {
        let _written = self.rt.stderr().write_all(line.as_bytes());
    }
}

impl Watch for Notices<'_> {
    fn few_workers(&self, serving: u64, asked: u64) {
        let _printed = eprintln!(self.rt;
            "couchd: {serving} of {asked} workers serve: threads or memory are refused"
        );
    }

    fn accept_failed(&self, error: &io::Error) {
        let _printed = eprintln!(self.rt; "couchd: a connection can't be accepted: {error}");
    }

    fn clients_full(&self, clients: u32) {
        let _printed = eprintln!(self.rt;
            "couchd: {clients} clients are connected, and no more are accepted until one leaves"
        );
    }

    fn no_event_loop(&self) {
        let _printed = eprintln!(self.rt;
            "couchd: no thread keeps connections that wait, and each of them holds a worker"
        );
    }

    fn event_loop_failed(&self, error: &io::Error) {
        let _printed = eprintln!(self.rt; "couchd: connections can't be waited for: {error}");
    }

    fn no_memory(&self) {
        let _printed = eprintln!(self.rt; "couchd: out of memory for a worker");
    }

    fn history_filling(&self, taken: u64, places: u64) {
        let _printed = eprintln!(self.rt; "couchd: the history has {taken} of {places} places");
    }

    fn history_full(&self, places: u64) {
        let _printed = eprintln!(self.rt; "couchd: the history is full, at {places} places");
    }
}

/// Serves a database: an empty one, or what a journal holds, and answers what the policy lets pass, if there is one. Threads are
/// those of `threads`, since only `main` has them of the runtime.
pub(crate) fn serve<A: AllocGlobal + Threads + Wait + Clock + Sync>(
    rt: &HostRuntime,
    threads: &A,
    serving: &Serving,
    policy: Option<&Policy>,
) -> io::Result<ExitCode>
    requires workers { (1 ≤ serving.now.workers) × (serving.now.workers ≤ 64) }
    requires places { 1 ≤ serving.now.max_places }
    requires session { is_some serving.now.journal ≡ true → serving.now.workers ≤ 63 }
{
    let Some(entrance) = entrance_at(rt, serving.port)? else {
        return Ok(ExitCode::FAILURE);
    };
    if let Some(options) = &serving.journal {
        return journaled::serve(rt, threads, &entrance, serving, options, policy);
    }
    if !say_port(rt, &entrance)? {
        return Ok(ExitCode::FAILURE);
    }
    let notices = Notices {
        rt,
        reads_only: false,
    };
    let status = run_server(
        &entrance,
        serving.workers,
        serving.max_places,
        terms(serving, policy),
        &notices,
        threads,
    );
    Ok(ExitCode::from(status))
}

/// Listens on a port that only this machine reaches; nothing where it is taken, which is said.
fn entrance_at(rt: &HostRuntime, port: u16) -> io::Result<Option<Entrance>> {
    let Ok(entrance) = Entrance::bind(rt, rt.alloc(), address(port)) else {
        let _printed = eprintln!(rt; "couchd: cannot listen on port {port}");
        return Ok(None);
    };
    Ok(Some(entrance))
}

/// The address of a port that only this machine reaches.
pub(crate) fn address(port: u16) -> SocketAddr {
    SocketAddr::V4(SocketAddrV4::new(Ipv4Addr::LOCALHOST, port))
}

/// Prints the port, and says whether the output can be written.
pub(crate) fn say_port(rt: &HostRuntime, entrance: &Entrance) -> io::Result<bool> {
    let port = entrance.listener().local_addr()?.port();
    let Ok(()) = println!(rt; "listening 127.0.0.1:{port}") else {
        let _failure = unwritten(rt);
        return Ok(false);
    };
    Ok(true)
}

/// The terms on which connections are served.
pub(crate) fn terms<'p>(serving: &Serving, policy: Option<&'p Policy>) -> Terms<'p> {
    Terms {
        connections: serving.connections,
        clients: serving.clients,
        pace: Pace {
            idle: Duration::from_secs(serving.idle as u64),
            patience: Duration::from_secs(serving.patience as u64),
        },
        log: serving.log,
        places: serving.max_places as u64,
        policy,
    }
}

/// What decides which requests are answered.
pub(crate) fn policy_of(browsers: BrowserOptions) -> Policy {
    let BrowserOptions { origins, hosts } = browsers;
    Policy {
        origins: allowed_of(origins),
        hosts: allowed_of(hosts),
    }
}

/// What is allowed by an option.
fn allowed_of(listed: Listed) -> Allowed {
    match listed {
        Listed::All => Allowed::All,
        Listed::Only(texts) => Allowed::Only(texts),
    }
}
