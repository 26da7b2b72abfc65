//! Commands, read from words, and what they make of a version.
ghost use Rattle.std.specs.Prelude.{IfOk};
ghost use Rattle.model.specs.History.{Extends};

use commands::{AskedRevisions, Command, Edit, MAX_PLACES, Merge, NamedRevisions, Seat};
use document_id::DocId;
use json_profile::{Body, MAX_NESTING, read};
use revision_id::RevId;
use snapshots::Version;
use std::alloc::Global;
use std::sync::Arc;
use std::test::Fail;

/// The version after the next command of a session.
pub(crate) fn act(version: &Version, session: u16, command: &Command) -> Result<Version, Fail>
    ensures { IfOk result (λ v. Extends v version.now) }
{
    let Some(seat) = Seat::new(session, version.next_call(session)) else {
        return Err("a session".into());
    };
    if version.place() >= u64::from(MAX_PLACES) {
        return Err("a place".into());
    }
    let acted = version.act(seat, command)?;
    Ok(acted)
}

/// The version after the command of these words, by session 0.
pub(crate) fn after(alloc: Global, version: &Version, words: &[&str]) -> Result<Version, Fail>
    ensures { IfOk result (λ v. Extends v version.now) }
{
    let command = command(alloc, words)?;
    act(version, 0, &command)
}

/// The command of these words. A revision or a number that isn't named is `-`. Edits are one after another, each as its id,
/// the revision that it names and its body; a path of revisions newest first; a document with its revisions as `a:1-a,2-b`,
/// where each revision is written out.
pub(crate) fn command(alloc: Global, words: &[&str]) -> Result<Command, Fail> {
    match words {
        ["edit", listed @ ..] => edits(all_edits(alloc, listed)?),
        ["delete", id, named] => edits(one_deletion(alloc, id, named)?),
        ["merge", id, path @ ..] => merges(alloc, merge(alloc, id, path, false)?),
        ["merge_deleted", id, path @ ..] => merges(alloc, merge(alloc, id, path, true)?),
        ["put_local", id, named, text] => local(alloc, id, named, Some(body(alloc, text)?)),
        ["delete_local", id, named] => local(alloc, id, named, None),
        ["set_limit", limit] => Ok(Command::set_limit(limit.parse::<u32>()?).ok_or("from 1")?),
        ["set_purged_limit", limit] => {
            Ok(Command::set_purged_limit(limit.parse::<u32>()?).ok_or("from 1")?)
        }
        ["purge", documents @ ..] => purge(asked(alloc, documents)?),
        ["compact"] => Ok(Command::compact()),
        _ => Err("a command".into()),
    }
}

/// A number, or none for `-`.
fn number(word: &str) -> Result<Option<u32>, Fail> {
    if word == "-" {
        return Ok(None);
    }
    Ok(Some(word.parse::<u32>()?))
}

fn body(alloc: Global, text: &str) -> Result<Arc<Body>, Fail> {
    let json = read(alloc, text.as_bytes(), MAX_NESTING)?;
    let body = json.object_without_specials(alloc)?;
    Ok(Arc::new(alloc, body)?)
}

fn empty_body(alloc: Global) -> Result<Arc<Body>, Fail> {
    Ok(Arc::new(alloc, Body::empty(alloc))?)
}

/// A revision, or none for `-`.
pub(crate) fn revision(word: &str) -> Result<Option<RevId>, Fail> {
    if word == "-" {
        return Ok(None);
    }
    Ok(Some(RevId::parse(word)?))
}

fn edit(alloc: Global, id: &str, named: &str, text: &str) -> Result<Edit, Fail> {
    Ok(Edit {
        id: DocId::new(alloc, id)?,
        named: revision(named)?,
        deleted: false,
        body: body(alloc, text)?,
    })
}

fn all_edits(alloc: Global, words: &[&str]) -> Result<Vec<Edit>, Fail> {
    let mut edits = Vec::new(alloc);
    for three in words.chunks(3) {
        let [id, named, text] = three else {
            return Err("three words an edit".into());
        };
        edits.push(edit(alloc, id, named, text)?)?;
    }
    Ok(edits)
}

fn one_deletion(alloc: Global, id: &str, named: &str) -> Result<Vec<Edit>, Fail> {
    let mut deletion = edit(alloc, id, named, "{}")?;
    deletion.deleted = true;
    Ok(Vec::from_array(alloc, [deletion])?)
}

fn edits(edits: Vec<Edit>) -> Result<Command, Fail> {
    Ok(Command::edits(edits).ok_or("few edits")?)
}

fn merge(alloc: Global, id: &str, path: &[&str], deleted: bool) -> Result<Merge, Fail> {
    let id = DocId::new(alloc, id)?;
    let path = revisions(alloc, path)?;
    Ok(Merge::new(id, path, deleted, empty_body(alloc)?).ok_or("a path")?)
}

fn merges(alloc: Global, merge: Merge) -> Result<Command, Fail> {
    let merges = Vec::from_array(alloc, [merge])?;
    Ok(Command::merges(merges).ok_or("few merges")?)
}

fn local(alloc: Global, id: &str, named: &str, body: Option<Arc<Body>>) -> Result<Command, Fail> {
    let id = DocId::new(alloc, id)?;
    let named = number(named)?;
    Ok(Command::put_local(id, named, body).ok_or("a number from 1")?)
}

fn revisions(alloc: Global, words: &[&str]) -> Result<Vec<RevId>, Fail> {
    let mut revisions = Vec::new(alloc);
    for word in words {
        revisions.push(RevId::parse(word)?)?;
    }
    Ok(revisions)
}

/// The revisions of a word, with `,` between.
pub(crate) fn listed(alloc: Global, word: &str) -> Result<Vec<RevId>, Fail> {
    let names: Vec<&str> = word.split(',').collect(alloc)?;
    revisions(alloc, names.as_slice())
}

fn one_asked(alloc: Global, word: &str) -> Result<AskedRevisions, Fail> {
    let Some((id, names)) = word.split_once(':') else {
        return Err("a document with revisions".into());
    };
    Ok(AskedRevisions {
        id: DocId::new(alloc, id)?,
        revisions: listed(alloc, names)?,
    })
}

fn all_asked(alloc: Global, words: &[&str]) -> Result<Vec<AskedRevisions>, Fail> {
    let mut asked = Vec::new(alloc);
    for word in words {
        asked.push(one_asked(alloc, word)?)?;
    }
    Ok(asked)
}

/// Documents with revisions, each of a word.
pub(crate) fn asked(alloc: Global, words: &[&str]) -> Result<NamedRevisions, Fail> {
    Ok(NamedRevisions::new(all_asked(alloc, words)?).ok_or("rising ids")?)
}

fn purge(documents: NamedRevisions) -> Result<Command, Fail> {
    Ok(Command::purge(documents).ok_or("few documents")?)
}
