//! The seats of commands.
ghost use Rattle.std.specs.Prelude.{◌≡◌, ◌↔◌, ◌<◌, IsSome, IfSome};
ghost use Rattle.model.specs.Command.{IsSeat};

use crate::config::MAX_SESSIONS;
use std::marker::Model;

/// Which call of which session a command is.
#[derive(Debug, Clone, Copy, Drop)]
pub struct Seat {
    session: u16,
    call: u64,
}

impl Model for Seat {
    ghost use Rattle.model.specs.Command.{Seat, IsSeat};

    ghost Value = { Seat };

    ghost view = { λ s. record { session = s.session; call = s.call } };

    ghost inverse = { λ s. record { session = s.session; call = s.call } };

    ghost invariant = { λ s. IsSeat (record { session = s.session; call = s.call }) };
}

impl Seat {
    /// The seat of a session's call, where the session is 0 to 63 and the call is not 0.
    pub fn new(session: u16, call: u64) -> Option<Seat>
        ensures in_range { IsSome result ↔ ((session < 64) × (0 < call)) }
        ensures seat { IfSome result (λ seat. seat ≡ record { session = session; call = call }) }
    {
        if session >= MAX_SESSIONS || call == 0 {
            return None;
        }
        Some(Seat { session, call })
    }

    /// The number of the session, from 0.
    pub fn session(self) -> u16
        ensures session { result ≡ self.session }
        ensures is_seat { IsSeat self }
    {
        self.session
    }

    /// The number of the call in its session, from 1.
    pub fn call(self) -> u64
        ensures call { result ≡ self.call }
        ensures is_seat { IsSeat self }
    {
        self.call
    }
}
