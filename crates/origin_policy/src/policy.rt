//! What an operator allows.
ghost use Rattle.std.specs.Prelude.{◌≡◌, string_bytes};
ghost use Rattle.std.specs.List.{list_any};
ghost use Rattle.std.specs.Str.{bytes_eq, str_eq_ignore_ascii_case};
ghost use Rattle.origin_policy.specs.Allowed.{allows_host, allows_origin, is_all};

/// The origins or the names of hosts that are allowed.
#[derive(Debug, Drop, PartialEq, Eq)]
pub enum Allowed {
    /// All of them.
    All,
    /// Those that are listed, and no other.
    Only(Vec<String>),
}

/// Which requests a server answers.
#[derive(Debug, Drop, PartialEq, Eq)]
pub struct Policy {
    /// The origins whose pages may use it, as a browser writes them: a scheme, a host, and a port where it isn't the scheme's.
    pub origins: Allowed,
    /// The names with a dot by which it may be reached.
    pub hosts: Allowed,
}

impl Allowed {
    /// Whether all are allowed.
    pub(crate) fn is_all(&self) -> bool
        ensures { result ≡ is_all self.now }
    {
        match self {
            Allowed::All => true,
            Allowed::Only(_) => false,
        }
    }

    /// Whether pages of this origin are allowed.
    pub(crate) fn allows_origin(&self, origin: &[u8]) -> bool
        ensures { result ≡ allows_origin self.now origin.now }
    {
        match self {
            Allowed::All => true,
            Allowed::Only(origins) => is_listed(origins, origin),
        }
    }

    /// Whether the server may be reached by this name, in upper or lower case.
    pub(crate) fn allows_host(&self, name: &[u8]) -> bool
        ensures { result ≡ allows_host self.now name.now }
    {
        match self {
            Allowed::All => true,
            Allowed::Only(hosts) => is_listed_in_any_case(hosts, name),
        }
    }
}

/// Whether a text is among these.
fn is_listed(texts: &[String], text: &[u8]) -> bool
    ensures { result ≡ list_any (λ listed. bytes_eq (string_bytes listed) text.now) texts.now }
{
    texts
        .iter()
        .any(|listed| listed.as_str().as_bytes() == text)
}

/// Whether a text is among these, in upper or lower case.
fn is_listed_in_any_case(texts: &[String], text: &[u8]) -> bool
    ensures { result ≡ list_any (λ listed. str_eq_ignore_ascii_case (string_bytes listed) text.now) texts.now }
{
    texts.iter().any(|listed| { listed.as_str().as_bytes().eq_ignore_ascii_case(text) })
}
