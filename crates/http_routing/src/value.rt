//! The values of parameters.
ghost use Rattle.std.specs.Prelude.{◌≡◌};
ghost use Rattle.http_routing.specs.Value.{flag};

/// A truth value: `true` or `false`.
pub fn parse_flag(value: &str) -> Option<bool>
    ensures { result ≡ flag value.now }
{
    match value {
        "true" => Some(true),
        "false" => Some(false),
        _ => None,
    }
}
