//! What a response says of its connection.
ghost use Rattle.std.specs.Prelude.{◌≡◌, ◌≤◌, length};
ghost use Rattle.http_response.specs.Response.{connection_line};

/// Whether the connection stays open.
#[derive(Clone, Copy, Debug, PartialEq, Eq)]
pub enum Connection {
    Open,
    Close,
}

impl Connection {
    /// The line of a head that says so, if there is one.
    pub(crate) fn line(self) -> &'static str
        ensures text { result.now ≡ connection_line self }
        ensures short { length result.now ≤ 19 }
    {
        match self {
            Connection::Open => "",
            Connection::Close => "Connection: close\r\n",
        }
    }
}
