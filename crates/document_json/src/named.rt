//! What a parameter and the body may both name.
ghost use Rattle.std.specs.Prelude.{◌≡◌};
ghost use Rattle.document_json.specs.Document.{named_once};

use crate::fault::Reason;

/// What is named in either place, and is one where both name it.
pub(crate) fn named_once<T: Copy + PartialEq>(
    parameter: Option<T>,
    member: Option<T>,
) -> Result<Option<T>, Reason>
    ensures { result ≡ named_once T.eq parameter member }
{
    let Some(member) = member else {
        return Ok(parameter);
    };
    let Some(parameter) = parameter else {
        return Ok(Some(member));
    };
    if parameter != member {
        return Err(Reason::Revision);
    }
    Ok(Some(parameter))
}
