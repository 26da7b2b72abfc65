//! The origins of pages, and the names of hosts.
ghost use Rattle.std.specs.Prelude.{◌≡◌, ◌<◌, ◌≤◌, IfSome, length};
ghost use Rattle.std.specs.List.{before_first, list_all, position};
ghost use Rattle.command_line.specs.Origins.{is_authority, is_authority_byte, is_behind_scheme, is_colon, is_host, is_host_byte, is_origin, is_scheme, is_scheme_byte};

/// Whether a text is an origin as a browser writes it: a scheme, a host, and a port where it isn't the scheme's, in lower case.
pub(crate) fn is_origin(text: &str) -> bool
    ensures { result ≡ is_origin text.now }
{
    is_origin_of(text.as_bytes())
}

/// The same of its bytes.
fn is_origin_of(bytes: &[u8]) -> bool
    ensures { result ≡ is_origin bytes.now }
{
    let scheme = before_colon(bytes);
    is_scheme(scheme) && is_behind_scheme(&bytes[scheme.len()..])
}

/// What comes before the first colon, or all where there is none.
fn before_colon(bytes: &[u8]) -> &[u8]
    ensures value { result.now ≡ before_first is_colon bytes.now }
    ensures within { length result.now ≤ length bytes.now }
{
    match colon_at(bytes) {
        Some(end) => &bytes[..end],
        None => bytes,
    }
}

/// The place of the first colon.
fn colon_at(bytes: &[u8]) -> Option<usize>
    ensures first { result ≡ position is_colon bytes.now }
    ensures within { IfSome result (λ place. place < length bytes.now) }
{
    bytes.iter().position(|byte| *byte == b':')
}

fn is_scheme(bytes: &[u8]) -> bool
    ensures { result ≡ is_scheme bytes.now }
{
    !bytes.is_empty() && are_scheme_bytes(bytes)
}

fn are_scheme_bytes(bytes: &[u8]) -> bool
    ensures { result ≡ list_all is_scheme_byte bytes.now }
{
    bytes.iter().all(|byte| is_scheme_byte(*byte))
}

fn is_scheme_byte(byte: u8) -> bool
    ensures { result ≡ is_scheme_byte byte }
{
    byte.is_ascii_lowercase()
        || byte.is_ascii_digit()
        || byte == b'+'
        || byte == b'-'
        || byte == b'.'
}

/// Whether bytes are `://` and what names a host, and a port where there is one.
fn is_behind_scheme(bytes: &[u8]) -> bool
    ensures { result ≡ is_behind_scheme bytes.now }
{
    match bytes.strip_prefix(b"://") {
        Some(authority) => is_authority(authority),
        None => false,
    }
}

fn is_authority(bytes: &[u8]) -> bool
    ensures { result ≡ is_authority bytes.now }
{
    !bytes.is_empty() && are_authority_bytes(bytes)
}

fn are_authority_bytes(bytes: &[u8]) -> bool
    ensures { result ≡ list_all is_authority_byte bytes.now }
{
    bytes.iter().all(|byte| is_authority_byte(*byte))
}

fn is_authority_byte(byte: u8) -> bool
    ensures { result ≡ is_authority_byte byte }
{
    byte.is_ascii_lowercase()
        || byte.is_ascii_digit()
        || byte == b'-'
        || byte == b'.'
        || byte == b'_'
        || byte == b':'
        || byte == b'['
        || byte == b']'
}

/// Whether a text is the name of a host, without a scheme and a port.
pub(crate) fn is_host(text: &str) -> bool
    ensures { result ≡ is_host text.now }
{
    !text.is_empty() && are_host_bytes(text.as_bytes())
}

fn are_host_bytes(bytes: &[u8]) -> bool
    ensures { result ≡ list_all is_host_byte bytes.now }
{
    bytes.iter().all(|byte| is_host_byte(*byte))
}

fn is_host_byte(byte: u8) -> bool
    ensures { result ≡ is_host_byte byte }
{
    byte.is_ascii_alphanumeric() || byte == b'-' || byte == b'.' || byte == b'_'
}
