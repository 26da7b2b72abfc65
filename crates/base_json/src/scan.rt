//! Where a value ends in a text of JSON.
ghost use Rattle.std.specs.Prelude.{◌≡◌, ◌+◌, ◌<◌, ◌≤◌, ◌++◌, IfSome, length, option_map};
ghost use Rattle.base_json.specs.Pieces.{behind, is_end as ends_at, depth_behind, place_behind};
ghost use Rattle.base_json.specs.declared.scan.Place.TheVariants as place;

/// Where a scan is.
#[derive(Clone, Copy, Debug, PartialEq, Eq)]
pub(crate) enum Place {
    /// Outside of strings.
    Outside,
    /// In a string.
    Quoted,
    /// In a string, behind a backslash.
    Escaped,
}

/// The array, the object or the string that a text begins with, and what is behind it; nothing where it doesn't end. Of a text
/// that begins with anything else, its first byte.
pub(crate) fn split_value(text: &[u8]) -> Option<(&[u8], &[u8])>
    ensures behind { option_map (λ parts. parts.1.now) result ≡ behind place.Outside 0 text.now }
    ensures parts { IfSome result (λ parts. text.now ≡ parts.0.now ++ parts.1.now) }
    ensures shorter { IfSome result (λ parts. length parts.1.now < length text.now) }
{
    let mut place = Place::Outside;
    let mut depth = 0;
    for at in 0..text.len() {
        let byte = text[at];
        depth = next_depth(place, depth, byte);
        place = next_place(place, byte);
        if is_end(place, depth) {
            return Some(text.split_at(at + 1));
        }
    }
    None
}

/// Where a scan is behind a byte.
fn next_place(place: Place, byte: u8) -> Place
    ensures { result ≡ place_behind place byte }
{
    match place {
        Place::Outside => {
            if byte == b'"' {
                return Place::Quoted;
            }
            Place::Outside
        }
        Place::Quoted => {
            if byte == b'"' {
                return Place::Outside;
            }
            if byte == b'\\' {
                return Place::Escaped;
            }
            Place::Quoted
        }
        Place::Escaped => Place::Quoted,
    }
}

/// How many brackets are open behind a byte.
fn next_depth(place: Place, depth: usize, byte: u8) -> usize
    requires room { depth < 18446744073709551615 }
    ensures depth { result ≡ depth_behind place depth byte }
    ensures within { result ≤ depth + 1 }
{
    if place != Place::Outside {
        return depth;
    }
    if byte == b'{' || byte == b'[' {
        return depth + 1;
    }
    if byte == b'}' || byte == b']' {
        return depth.saturating_sub(1);
    }
    depth
}

/// Whether a value ends there.
fn is_end(place: Place, depth: usize) -> bool
    ensures { result ≡ ends_at place depth }
{
    match place {
        Place::Outside => depth == 0,
        Place::Quoted => false,
        Place::Escaped => false,
    }
}
