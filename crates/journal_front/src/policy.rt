//! When a journal is synced.
ghost use Rattle.std.specs.Prelude.{◌≡◌};
ghost use Rattle.journal_front.specs.Server.{awaits, is_due, syncs};

/// When what was appended to a journal is synced. It is appended before it is answered, whichever it is.
#[derive(Clone, Copy, Debug, PartialEq, Eq)]
pub enum SyncPolicy {
    /// Before it is answered.
    Always,
    /// At most a second apart, while there is something new.
    EverySecond,
    /// When the system does.
    Never,
}

impl SyncPolicy {
    /// Whether a call is answered only when what it shows is kept.
    pub fn awaits(self) -> bool
        ensures { result ≡ awaits self }
    {
        self == SyncPolicy::Always
    }

    /// Whether syncs are asked for.
    pub(crate) fn syncs(self) -> bool
        ensures { result ≡ syncs self }
    {
        self != SyncPolicy::Never
    }

    /// Whether a sync is due in a pass of the keeper: where it is the last one, or where the time has come.
    pub(crate) fn is_due(self, last: bool, came: bool) -> bool
        ensures { result ≡ is_due self last came }
    {
        match self {
            SyncPolicy::Always => true,
            SyncPolicy::EverySecond => last || came,
            SyncPolicy::Never => false,
        }
    }
}
