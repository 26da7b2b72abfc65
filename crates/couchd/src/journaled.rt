//! `couchd serve --data`: a database is served whose history a journal keeps.
ghost use Rattle.std.specs.Prelude.{◌≡◌, ◌≤◌};

use crate::serving::{Notices, address, say_port, terms};
use command_line::{JournalOptions, Serving, SyncPolicy as Syncing};
use http_front::{Entrance, Policy};
use journal::{Access, Begun, DiskFile, Dropped, Folder, Journal, StartFault, Started};
use journal_front::{Epoch, Epochs, Notices as JournalNotices, Service, SyncPolicy, run_kept};
use snapshots::Version;
use std::io;
use std::net::TcpStream;
use std::process::ExitCode;
use std::sync::Wait;
use std::thread::Threads;
use std::time::{Clock, Duration};

/// So many milliseconds a connection may take that wakes a worker.
const WAKE_MILLISECONDS: u64 = 100;

impl JournalNotices<DiskFile> for Notices<'_> {
    ghost use Rattle.std.specs.Prelude.{⊤};

    ghost reported = { ⊤ };

    /// Of one that is only read nothing is said: it has no file from the start.
    fn failed(&self, journal: &Journal<DiskFile>) {
        if self.reads_only {
            return;
        }
        let _printed = eprintln!(self.rt;
            "couchd: the journal failed, and writes are refused until it is written anew"
        );
        if let Some(error) = journal.file().error() {
            let _printed = eprintln!(self.rt; "couchd: {error}");
        }
    }

    fn mended(&self) {
        let _printed = eprintln!(self.rt;
            "couchd: the journal is written anew, and writes are taken again"
        );
    }

    fn no_keeper(&self) {
        let _printed = eprintln!(self.rt;
            "couchd: no thread writes the journal, and writes are refused"
        );
    }
}

/// The epochs of a folder, and the entrance whose workers are woken at the end of one.
#[derive(Drop)]
struct Files<'r> {
    rt: &'r HostRuntime,
    entrance: &'r Entrance,
    folder: Folder,
    epoch: u64,
    keep: Option<u32>,
    access: Access,
    port: u16,
}

impl Epochs<DiskFile> for Files<'_> {
    ghost use Rattle.std.specs.Prelude.{⊤};

    ghost reported = { ⊤ };

    fn succeed(&mut self, _full: &Journal<DiskFile>, last: &Version) -> Option<Epoch<DiskFile>> {
        let Access::ReadWrite { shows_kept } = self.access else {
            return None;
        };
        match self.folder.succeed(self.rt, self.epoch, last, shows_kept) {
            Ok(begun) => Some(self.begun(begun)),
            Err(fault) => {
                let _printed = eprintln!(self.rt;
                    "couchd: no next epoch begins, and writes are refused until one does: {fault}"
                );
                None
            }
        }
    }

    fn rewrite(
        &mut self,
        _broken: &Journal<DiskFile>,
        last: &Version,
    ) -> Option<Journal<DiskFile>> {
        let Access::ReadWrite { shows_kept } = self.access else {
            return None;
        };
        match self.folder.rewrite(self.rt, self.epoch, last, shows_kept) {
            Ok(journal) => Some(journal),
            Err(fault) => {
                let _printed = eprintln!(self.rt;
                    "couchd: the journal can't be written anew yet: {fault}"
                );
                None
            }
        }
    }

    /// Workers that accept connections are woken by one each. Where one doesn't come in time, as many wait as can, and no worker
    /// waits for one.
    fn wake(&self, workers: u16) {
        if self.entrance.wake() {
            return;
        }
        let time = Duration::from_millis(WAKE_MILLISECONDS);
        for _ in 0..workers {
            if TcpStream::connect_timeout(self.rt, &address(self.port), time).is_err() {
                return;
            }
        }
    }
}

impl Files<'_> {
    /// An epoch that began, after which older files are removed that are not to be kept.
    fn begun(&mut self, begun: Begun) -> Epoch<DiskFile>
        ensures { result.version.base ≡ begun.version.base }
    {
        remove_old(self.rt, &self.folder, begun.epoch, self.keep);
        self.epoch_of(begun)
    }

    /// The first epoch, which may have no file yet: then no older one is removed.
    fn first(&mut self, started: Started) -> Epoch<DiskFile> {
        let Started {
            begun,
            unwritten,
            ..
        } = started;
        if unwritten.is_some() || self.access == Access::ReadOnly {
            return self.epoch_of(begun);
        }
        self.begun(begun)
    }

    /// An epoch that began.
    fn epoch_of(&mut self, begun: Begun) -> Epoch<DiskFile>
        ensures { result.version.base ≡ begun.version.base }
    {
        let Begun {
            version,
            journal,
            epoch,
        } = begun;
        self.epoch = epoch;
        Epoch { version, journal }
    }
}

/// Serves what the journal in the folder holds, to the connections of an entrance, whose port is printed. Where the
/// folder can't be had, or what it holds can't be gone on from, that is said. Threads are those of `threads`, since only `main`
/// has them of the runtime.
pub(crate) fn serve<A: AllocGlobal + Threads + Wait + Clock + Sync>(
    rt: &HostRuntime,
    threads: &A,
    entrance: &Entrance,
    serving: &Serving,
    options: &JournalOptions,
    policy: Option<&Policy>,
) -> io::Result<ExitCode>
    requires workers { (1 ≤ serving.now.workers) × (serving.now.workers ≤ 63) }
    requires places { 1 ≤ serving.now.max_places }
{
    let port = entrance.listener().local_addr()?.port();
    let Some(folder) = opened(rt, port, options) else {
        return Ok(ExitCode::FAILURE);
    };
    let access = access_of(options);
    let Some(started) = begin(rt, &folder, access, options) else {
        close(rt, folder, access);
        return Ok(ExitCode::FAILURE);
    };
    let mut files = Files {
        rt,
        entrance,
        folder,
        epoch: started.begun.epoch,
        keep: options.keep,
        access,
        port,
    };
    let first = files.first(started);
    let served = serve_from(
        rt, threads, entrance, serving, options, policy, first, &mut files,
    );
    close(rt, files.folder, access);
    served
}

/// Serves from the epoch that begins, after the port was printed.
fn serve_from<A: AllocGlobal + Threads + Wait + Clock + Sync>(
    rt: &HostRuntime,
    threads: &A,
    entrance: &Entrance,
    serving: &Serving,
    options: &JournalOptions,
    policy: Option<&Policy>,
    first: Epoch<DiskFile>,
    files: &mut Files<'_>,
) -> io::Result<ExitCode>
    requires workers { (1 ≤ serving.now.workers) × (serving.now.workers ≤ 63) }
    requires places { 1 ≤ serving.now.max_places }
{
    if !say_port(rt, entrance)? {
        return Ok(ExitCode::FAILURE);
    }
    let service = Service {
        entrance,
        workers: serving.workers,
        max_places: serving.max_places,
        terms: terms(serving, policy),
        policy: policy_of(options.sync),
        notices: &Notices {
            rt,
            reads_only: options.read_only,
        },
    };
    match run_kept(&service, first, files, threads) {
        Some(journal) if !journal.is_broken() => Ok(ExitCode::SUCCESS),
        _ => Ok(ExitCode::FAILURE),
    }
}

/// What is done in the folder.
fn access_of(options: &JournalOptions) -> Access {
    if options.read_only {
        return Access::ReadOnly;
    }
    Access::ReadWrite {
        shows_kept: matches!(options.sync, Syncing::Always),
    }
}

/// The folder, locked. One that is only read is not made, and says no port.
fn opened(rt: &HostRuntime, port: u16, options: &JournalOptions) -> Option<Folder> {
    let path = options.folder.as_str();
    let locked = if options.read_only {
        Folder::lock(rt, path)
    } else {
        Folder::open(rt, path, port)
    };
    let folder = match locked {
        Ok(folder) => folder,
        Err(fault) => {
            let _printed = eprintln!(rt; "couchd: {path}: {fault}");
            return None;
        }
    };
    if let Some(left) = folder.left_by() {
        let _printed = eprintln!(rt;
            "couchd: {path}: a server on port {left} ended without giving it up"
        );
    }
    if let Some(fault) = folder.unsaid() {
        let _printed = eprintln!(rt; "couchd: {path}: the lock doesn't say the port: {fault}");
    }
    Some(folder)
}

/// Gives the folder up.
fn close(rt: &HostRuntime, folder: Folder, access: Access) {
    if access == Access::ReadOnly {
        return;
    }
    if let Err(fault) = folder.close(rt) {
        let _printed = eprintln!(rt; "couchd: the folder is not given up: {fault}");
    }
}

/// Begins the next epoch in the folder, and says what of the newest file is lost, if something is, and whether anything is written.
fn begin(
    rt: &HostRuntime,
    folder: &Folder,
    access: Access,
    options: &JournalOptions,
) -> Option<Started> {
    let path = options.folder.as_str();
    match folder.start(rt, access) {
        Ok(started) => {
            say_lost(rt, path, &started);
            say_unwritten(rt, path, access, &started);
            Some(started)
        }
        Err(fault) => {
            let _printed = eprintln!(rt; "couchd: {path}: {fault}");
            if let StartFault::Judged { .. } = fault {
                let _printed = eprintln!(rt; "couchd: run couchd repair --data {path}");
            }
            None
        }
    }
}

/// Says that writes are refused, where the epoch that begins has no file.
fn say_unwritten(rt: &HostRuntime, path: &str, access: Access, started: &Started) {
    if access == Access::ReadOnly {
        let _printed = eprintln!(rt; "couchd: {path}: writes are refused: it is only read");
    }
    if let Some(fault) = &started.unwritten {
        let _printed = eprintln!(rt;
            "couchd: {path}: no epoch begins yet, and writes are refused until one does: {fault}"
        );
    }
}

/// Says what of the file that was read is dropped or missing, and where update numbers go on above it.
fn say_lost(rt: &HostRuntime, path: &str, started: &Started) {
    let read = started.read.unwrap_or(0);
    if let Some(dropped) = started.dropped {
        say_dropped(rt, path, read, dropped);
    }
    if let Some(ahead) = started.ahead {
        let _printed = eprintln!(rt; "couchd: {path}: the file of epoch {ahead} is missing");
    }
    if started.missing > 0 {
        let _printed = eprintln!(rt;
            "couchd: {path}: {read:010}.dump lacks {} bytes that were synced",
            started.missing
        );
    }
    if started.raised {
        let number = started.begun.version.database().documents().update_seq();
        let _printed = eprintln!(rt;
            "couchd: {path}: update numbers go on above {number}, since some that were shown may be lost"
        );
    }
}

/// Says what of the file that was read is dropped.
fn say_dropped(rt: &HostRuntime, path: &str, read: u64, dropped: Dropped) {
    let Dropped { place, bytes, torn } = dropped;
    if torn {
        let _printed = eprintln!(rt;
            "couchd: {path}: {read:010}.dump is torn: {bytes} bytes behind the entry at place {place} were never synced, and are dropped"
        );
        return;
    }
    let next = place.saturating_add(1);
    let _printed = eprintln!(rt;
        "couchd: {path}: the last line was cut: the entry at place {next}, of which {bytes} bytes are there, is dropped"
    );
}

/// Removes all but the newest files, where so many are to be kept.
fn remove_old(rt: &HostRuntime, folder: &Folder, epoch: u64, keep: Option<u32>) {
    let Some(count) = keep else {
        return;
    };
    if let Err(fault) = folder.remove_old(rt, epoch, count as u64) {
        let _printed = eprintln!(rt; "couchd: old files could not be removed: {fault}");
    }
}

/// The policy of the keeper.
fn policy_of(policy: Syncing) -> SyncPolicy {
    match policy {
        Syncing::Always => SyncPolicy::Always,
        Syncing::EverySecond => SyncPolicy::EverySecond,
        Syncing::Never => SyncPolicy::Never,
    }
}
