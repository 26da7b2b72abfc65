//! Why a write was refused, as an answer reports it.
ghost use Rattle.std.specs.Prelude.{◌≡◌};
ghost use Rattle.api_json.specs.Refusals.{write_error, write_reason};

use model::Refusal;

/// The error that a refused write is.
pub(crate) fn error_of(refusal: Refusal) -> &'static str
    ensures { result.now ≡ write_error refusal }
{
    match refusal {
        Refusal::Conflict => "conflict",
        Refusal::BadHistory => "bad_history",
        Refusal::Missing | Refusal::Deleted => "not_found",
        Refusal::GenerationLimit => "generation",
    }
}

/// Why a write was refused.
pub(crate) fn reason_of(refusal: Refusal) -> &'static str
    ensures { result.now ≡ write_reason refusal }
{
    match refusal {
        Refusal::Conflict => "Document update conflict.",
        Refusal::BadHistory => "A known revision has another parent.",
        Refusal::Missing => "missing",
        Refusal::Deleted => "deleted",
        Refusal::GenerationLimit => "The generation limit is reached.",
    }
}
