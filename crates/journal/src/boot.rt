//! Which run of the system this is.
ghost use Rattle.std.specs.Prelude.{◌≡◌};
ghost use Rattle.journal.specs.Marks.{is_same_run};

use std::fs::{self, File};
use std::io::Read;
use std::rt::Files;

/// How many bytes the id has.
pub(crate) const BOOT_ID: usize = 36;

/// Where the system says its id.
const PATH: &str = "/proc/sys/kernel/random/boot_id";

/// The id that the system took when it began, as it writes it, or hyphens where it can't be read.
#[derive(Clone, Copy, Debug, PartialEq, Eq)]
pub struct BootId {
    pub(crate) text: [u8; BOOT_ID],
}

impl BootId {
    /// Whether both are of one run of the system, where one is known.
    pub(crate) fn is_same_run(&self, other: &BootId) -> bool
        ensures { result ≡ is_same_run self.now.text other.now.text }
    {
        self.text == other.text && self.text != UNKNOWN.text
    }
}

/// What stands for an id that can't be read.
const UNKNOWN: BootId = BootId {
    text: [b'-'; BOOT_ID],
};

/// The id of the system that runs.
pub(crate) fn read_boot_id<R: Files<File = File>>(rt: &R) -> BootId {
    let mut text = [0u8; BOOT_ID];
    let Ok(mut file) = fs::open(rt, PATH) else {
        return UNKNOWN;
    };
    let Ok(()) = file.read_exact(&mut text) else {
        return UNKNOWN;
    };
    BootId { text }
}
