//! The bodies of responses.
ghost use Rattle.std.specs.Prelude.{◌≡◌};
ghost use Rattle.http_response.specs.Response.{bytes_of, taken_body};

use http_request::Extent;

/// The text of a body.
#[derive(Drop)]
pub(crate) enum BodyText {
    /// A text that takes no memory.
    Fixed(&'static str),
    Made(String),
}

impl BodyText {
    pub(crate) fn as_str(&self) -> &str
        ensures { result.now ≡ bytes_of self.now }
    {
        match self {
            BodyText::Fixed(text) => text,
            BodyText::Made(text) => text.as_str(),
        }
    }

    /// What a request of this extent takes of it.
    pub(crate) fn taken(self, extent: Extent) -> BodyText
        ensures { bytes_of result ≡ taken_body extent (bytes_of self) }
    {
        match extent {
            Extent::Whole => self,
            Extent::HeadAlone => BodyText::Fixed(""),
        }
    }
}
