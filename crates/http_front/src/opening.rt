//! How a program opens a database.
ghost use Rattle.std.specs.Prelude.{◌≡◌, ◌≤◌};
ghost use Rattle.http_front.specs.Opening.{server_config};

use commands::{Config, Limits};

/// The exit status where nothing was served, since memory or a reader was refused before.
pub(crate) const NOT_OPENED: u8 = 1;

/// How many entries a history may have, where nothing else is asked for.
pub const MAX_PLACES: u32 = 1_000_000;

/// A database of so many sessions, whose history may have so many entries.
pub fn server_config(sessions: u16, max_places: u32) -> Config
    requires sessions { (1 ≤ sessions) × (sessions ≤ 64) }
    requires places { 1 ≤ max_places }
    ensures { result ≡ server_config sessions max_places }
{
    let Some(config) = Config::new(Limits {
        sessions,
        queue: 256,
        gather: 32,
        slice: 256,
        slack: 16,
        tries: 8,
        max_places,
    }) else {
        unreachable!()
    };
    config
}
