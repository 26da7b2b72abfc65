//! Why a text is not taken.

use json_profile::JsonFault;
use std::alloc::{AllocError, AllocFailed};

/// What of a text is not as its form asks.
#[derive(Clone, Copy, Debug, PartialEq, Eq)]
pub enum Reason {
    /// An id, of the path or of the body.
    Id,
    /// A parameter.
    Parameter,
    /// A revision, of a parameter or of the body.
    Revision,
    /// The text is no JSON.
    Json,
    /// A number of the text is no whole number of `i64`.
    Number,
    /// The text nests too deep.
    Depth,
    /// The text is not of the form that is asked for.
    Shape,
    /// A document has an unknown member whose name begins with `_`.
    Member,
}

/// Why nothing was read.
#[derive(Clone, Copy, Debug, PartialEq, Eq)]
pub enum Fault {
    /// The text is not as its form asks.
    Refused(Reason),
    /// Memory was refused.
    Memory,
}

impl From<Reason> for Fault {
    ghost use Rattle.std.specs.Prelude.{◌≡◌};
    ghost use Rattle.document_json.specs.declared.fault.Fault.TheVariants.{Refused};

    ghost from_gives = { λ reason fault. fault ≡ Refused reason };

    fn from(reason: Reason) -> Fault {
        Fault::Refused(reason)
    }
}

impl From<JsonFault> for Fault {
    ghost use Rattle.std.specs.Prelude.{◌≡◌};
    ghost use Rattle.document_json.specs.Text.{fault_of};

    ghost from_gives = { λ json fault. fault ≡ fault_of json };

    fn from(fault: JsonFault) -> Fault {
        match fault {
            JsonFault::Malformed => Fault::Refused(Reason::Json),
            JsonFault::Number => Fault::Refused(Reason::Number),
            JsonFault::Depth => Fault::Refused(Reason::Depth),
            JsonFault::NotAnObject => Fault::Refused(Reason::Shape),
            JsonFault::Memory => Fault::Memory,
        }
    }
}

impl From<AllocError> for Fault {
    ghost use Rattle.std.specs.Prelude.{◌≡◌};
    ghost use Rattle.document_json.specs.declared.fault.Fault.TheVariants.{Memory};

    ghost from_gives = { λ _ fault. fault ≡ Memory };

    fn from(_refused: AllocError) -> Fault {
        Fault::Memory
    }
}

impl<T: Drop> From<AllocFailed<T>> for Fault {
    ghost use Rattle.std.specs.Prelude.{◌≡◌};
    ghost use Rattle.document_json.specs.declared.fault.Fault.TheVariants.{Memory};

    ghost from_gives = { λ _ fault. fault ≡ Memory };

    fn from(_refused: AllocFailed<T>) -> Fault {
        Fault::Memory
    }
}
