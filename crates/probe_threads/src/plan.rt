//! What a run is to do.

use commands::{Config, Limits, MAX_PLACES};

/// What the sessions do.
#[derive(Debug, Clone, Copy, PartialEq, Eq)]
pub(crate) enum Work {
    /// One writes a document, and once more where it had no receipt.
    Write,
    /// One writes three documents and compacts, and compacts once more where it had no receipt.
    Compact,
    /// Each looks so often, with a snapshot of its own.
    Looks(u32),
    /// Each sees so often what is published.
    Refreshes(u32),
    /// So many sessions write so many documents each. One more, which is given the program's first thread, does
    /// nothing: the heap of that thread grows in larger steps than those of others.
    Writes { writers: u16, times: u32 },
}

/// A database, and what its sessions do.
#[derive(Debug, Clone, Copy, Drop)]
pub(crate) struct Plan {
    pub(crate) config: Config,
    /// Where there is none, one writes a document, and then one of the successor of the database.
    pub(crate) work: Option<Work>,
}

/// What the words of the command line ask for.
pub(crate) fn read(words: &[String]) -> Option<Plan> {
    match words {
        [_, name] if name.as_str() == "write" => of_numbers(1, 1, Some(Work::Write)),
        [_, name] if name.as_str() == "successor" => of_numbers(1, 1, None),
        [_, name] if name.as_str() == "compact" => of_numbers(1, 1, Some(Work::Compact)),
        [_, name, threads, times] if name.as_str() == "looks" => {
            of_numbers(number(threads)?, 1, Some(Work::Looks(times.parse().ok()?)))
        }
        [_, name, threads, times] if name.as_str() == "refreshes" => {
            of_numbers(
                number(threads)?,
                1,
                Some(Work::Refreshes(times.parse().ok()?)),
            )
        }
        [_, name, sessions, gather, times] if name.as_str() == "writes" => {
            let writers = number(sessions)?;
            let times = times.parse().ok()?;
            of_numbers(
                writers.checked_add(1)?,
                number(gather)?,
                Some(Work::Writes { writers, times }),
            )
        }
        _ => None,
    }
}

fn number(word: &String) -> Option<u16> {
    word.parse().ok()
}

fn of_numbers(sessions: u16, gather: u16, work: Option<Work>) -> Option<Plan> {
    let config = Config::new(Limits {
        sessions,
        queue: 64,
        gather,
        slice: 1,
        slack: 0,
        tries: 1,
        max_places: MAX_PLACES,
    })?;
    Some(Plan { config, work })
}
