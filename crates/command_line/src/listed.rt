//! Lists in arguments.
ghost use Rattle.std.specs.Prelude.{◌≡◌, IfNone, IfOk, IfSome, Some, None, length, map, option_map, string_bytes, if◌then◌else◌};
ghost use Rattle.std.specs.List.{position_or_len};
ghost use Rattle.command_line.specs.Listed.{is_comma, item_of, items_listed, IsSplit};

use crate::doc_ids::id_of;
use crate::origins::{is_host, is_origin};
use std::alloc::{AllocError, Global};

/// What a list is of.
#[derive(Clone, Copy, Debug, PartialEq, Eq)]
pub(crate) enum ListOf {
    /// The ids of documents, each escaped as in a path.
    Ids,
    /// The origins of pages.
    Origins,
    /// The names of hosts.
    Hosts,
}

/// What a text lists between commas; nothing where a part of it is none of what the list is of.
pub(crate) fn texts_listed(
    alloc: Global,
    of: ListOf,
    list: &str,
) -> Result<Option<Vec<String>>, AllocError>
    ensures { IfOk result (λ read. option_map (λ texts. map string_bytes texts.items) read
        ≡ items_listed (item_of of) list.now) }
{
    let mut texts = Vec::new(alloc);
    let mut rest = list;
    while let Some((part, after)) = split_list(rest) {
        let Some(text) = item_of(alloc, of, part)? else {
            return Ok(None);
        };
        texts.push(text)?;
        rest = after;
    }
    let Some(text) = item_of(alloc, of, rest)? else {
        return Ok(None);
    };
    texts.push(text)?;
    Ok(Some(texts))
}

/// What comes before the first comma, and what behind it; nothing where there is none.
fn split_list(list: &str) -> Option<(&str, &str)>
    ensures some { IfSome result (λ parts. IsSplit list.now parts.0.now parts.1.now) }
    ensures none { IfNone result (position_or_len is_comma list.now ≡ length list.now) }
{
    list.split_once(',')
}

/// What a part of a list stands for; nothing where it is none of what the list is of.
fn item_of(alloc: Global, of: ListOf, part: &str) -> Result<Option<String>, AllocError>
    ensures { IfOk result (λ item. option_map string_bytes item ≡ item_of of part.now) }
{
    match of {
        ListOf::Ids => id_of(alloc, part),
        ListOf::Origins => text_if(alloc, part, is_origin(part)),
        ListOf::Hosts => text_if(alloc, part, is_host(part)),
    }
}

/// The text, where it is one of those that are meant.
fn text_if(alloc: Global, text: &str, is_meant: bool) -> Result<Option<String>, AllocError>
    ensures { IfOk result (λ kept. option_map string_bytes kept
        ≡ (if is_meant then Some text.now else None)) }
{
    if !is_meant {
        return Ok(None);
    }
    Ok(Some(String::from_str(alloc, text)?))
}
