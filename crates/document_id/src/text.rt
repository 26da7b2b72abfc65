//! The text of an id, which lies in the id itself where it is short.
ghost use Rattle.std.specs.Prelude.{◌≡◌, IfOk};
ghost use Rattle.document_id.specs.Text.{bytes_of};

use arrayvec::ArrayString;
use std::alloc::{AllocError, Global};
use std::sync::ArcStr;

/// The most bytes of a text that lies in the value.
const SHORT_BYTES: usize = 16;

/// A short text is copied and compared where it lies; a longer one is shared.
#[derive(Drop)]
pub(crate) enum Text {
    Short(ArrayString<SHORT_BYTES>),
    Long(ArcStr),
}

impl Text {
    pub(crate) fn new(alloc: Global, text: &str) -> Result<Text, AllocError>
        ensures { IfOk result (λ made. bytes_of made ≡ text.now) }
    {
        match ArrayString::from(text) {
            Ok(short) => Ok(Text::Short(short)),
            Err(_longer) => Ok(Text::Long(ArcStr::from_str(alloc, text)?)),
        }
    }

    pub(crate) fn as_str(&self) -> &str
        ensures { result.now ≡ bytes_of self.now }
    {
        match self {
            Text::Short(text) => text.as_str(),
            Text::Long(text) => text.as_str(),
        }
    }

    /// The same text: a copy of a short one, and one more owner of a long one.
    pub(crate) fn share(&self) -> Result<Text, AllocError>
        ensures { IfOk result (λ text. bytes_of text ≡ bytes_of self.now) }
    {
        match self {
            Text::Short(text) => Ok(Text::Short(*text)),
            Text::Long(text) => Ok(Text::Long(text.clone()?)),
        }
    }
}
