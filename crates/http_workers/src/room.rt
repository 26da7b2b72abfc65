//! How full a history is.
ghost use Rattle.std.specs.Prelude.{◌*◌, ◌≤◌, ◌↔◌, IsTrue};

use crate::watch::Watch;
use std::sync::atomic::{AtomicBool, Ordering};

/// What is said of how full a history is: that nine tenths of its places are taken, and that all are. Each is
/// said once.
#[derive(Drop)]
pub(crate) struct Room {
    places: u64,
    filling_said: AtomicBool,
    full_said: AtomicBool,
}

impl Room {
    /// Of a history with so many places, of which nothing was said yet.
    pub(crate) fn new(places: u64) -> Room {
        Room {
            places,
            filling_said: AtomicBool::new(false),
            full_said: AtomicBool::new(false),
        }
    }

    /// Says how full the history is when so many places are taken, where that is to be said and wasn't yet.
    pub(crate) fn note<V: Watch>(&self, place: u64, watch: &V) {
        if place >= self.places {
            if is_first(&self.full_said) {
                watch.history_full(self.places);
            }
            return;
        }
        if is_filling(place, self.places) && is_first(&self.filling_said) {
            watch.history_filling(place, self.places);
        }
    }
}

/// Whether nine tenths of the places are taken.
fn is_filling(place: u64, places: u64) -> bool
    ensures { IsTrue result ↔ (9 * places ≤ 10 * place) }
{
    place >= places - places / 10
}

/// Whether nobody set this flag before. It is set then.
fn is_first(flag: &AtomicBool) -> bool {
    !flag.load(Ordering::Relaxed) && !flag.swap(true, Ordering::Relaxed)
}
