//! Rows of a document's revisions, and of an older tree that is kept.

use crate::merges::{grafted, path, revisions, written};
use revision_id::RevId;
use revision_tree::{Node, RevTree};
use std::alloc::{AllocError, Global};
use std::test::Fail;
use tree_merge::{MergeFault, cut_leaves, is_same, removed_leaves, stem, strip};

#[derive(Drop)]
struct Trees {
    tree: Option<RevTree>,
    kept: Option<RevTree>,
}

/// What comes of each statement, and `;` after it.
pub(crate) fn told(alloc: Global, row: &str) -> Result<String, Fail> {
    let mut text = String::new(alloc);
    let mut trees = Trees {
        tree: None,
        kept: None,
    };
    for statement in row.split(';') {
        let mut piece = String::new(alloc);
        trees.perform(alloc, statement, &mut piece)?;
        write!(text, "{};", piece.trim())?;
    }
    Ok(text)
}

impl Trees {
    /// Does what a statement says, and reports what comes of it.
    fn perform(&mut self, alloc: Global, statement: &str, text: &mut String) -> Result<(), Fail> {
        let words: Vec<&str> = statement.split_whitespace().collect(alloc)?;
        match words.as_slice() {
            ["graft", words @ ..] => self.graft(alloc, words, false, text),
            ["graft_deleted", words @ ..] => self.graft(alloc, words, true, text),
            ["with_path", limit, words @ ..] => {
                self.write(alloc, limit.parse::<u32>()?, words, text)
            }
            words => self.perform_on(alloc, words, text),
        }
    }

    /// The same of a statement that wants a tree: after a change the nodes are reported, after a read what is read.
    fn perform_on(&mut self, alloc: Global, words: &[&str], text: &mut String) -> Result<(), Fail> {
        let Some(tree) = &self.tree else {
            return push_nodes(text, None);
        };
        match words {
            ["stem", limit] => self.tree = Some(stemmed(alloc, tree, limit.parse::<u32>()?)?),
            ["strip"] => self.tree = Some(strip(alloc, tree)?),
            ["cut", words @ ..] => self.tree = cut(alloc, tree, words, text)?,
            ["keep"] => self.kept = Some(tree.share(alloc)?),
            ["is_same"] => return push_same(text, tree, self.kept.as_ref()),
            words => return push_read(alloc, text, tree, words),
        }
        push_nodes(text, self.tree.as_ref())
    }

    fn graft(
        &mut self,
        alloc: Global,
        words: &[&str],
        deleted: bool,
        text: &mut String,
    ) -> Result<(), Fail> {
        let path = path(alloc, words, deleted)?;
        let grafted = grafted(alloc, self.tree.as_ref(), &path);
        self.take(grafted, text)
    }

    fn write(
        &mut self,
        alloc: Global,
        limit: u32,
        words: &[&str],
        text: &mut String,
    ) -> Result<(), Fail> {
        if limit == 0 {
            return Err("a limit from 1".into());
        }
        let path = path(alloc, words, false)?;
        let written = written(alloc, self.tree.as_ref(), limit, &path);
        self.take(written, text)
    }

    /// Takes a tree that was made, or reports why there is none.
    fn take(&mut self, made: Result<RevTree, MergeFault>, text: &mut String) -> Result<(), Fail> {
        match made {
            Ok(tree) => self.tree = Some(tree),
            Err(MergeFault::Contradiction) => text.push_str("contradiction ")?,
            Err(MergeFault::Memory) => text.push_str("memory ")?,
        }
        push_nodes(text, self.tree.as_ref())
    }
}

fn stemmed(alloc: Global, tree: &RevTree, limit: u32) -> Result<RevTree, Fail> {
    if limit == 0 {
        return Err("a limit from 1".into());
    }
    Ok(stem(alloc, tree, limit)?)
}

/// The tree without the named leaves. Reports which of them there were.
fn cut(
    alloc: Global,
    tree: &RevTree,
    words: &[&str],
    text: &mut String,
) -> Result<Option<RevTree>, Fail> {
    let named = revisions(alloc, words)?;
    push_names(text, &removed_leaves(alloc, tree, &named)?)?;
    text.push_str(" left ")?;
    Ok(cut_leaves(alloc, tree, &named)?)
}

fn push_names(text: &mut String, revs: &[RevId]) -> Result<(), AllocError> {
    for rev in revs {
        write!(text, " {}", *rev)?;
    }
    Ok(())
}

/// Whether the tree is the one that was kept.
fn push_same(text: &mut String, tree: &RevTree, kept: Option<&RevTree>) -> Result<(), Fail> {
    match kept {
        Some(kept) => write!(text, "{}", is_same(tree, kept))?,
        None => text.push_str("none is kept")?,
    }
    Ok(())
}

/// What the tree says of itself.
fn push_read(alloc: Global, text: &mut String, tree: &RevTree, words: &[&str]) -> Result<(), Fail> {
    match words {
        ["count"] => write!(text, "{}", tree.count())?,
        ["winner"] => push_winner(text, tree)?,
        ["leaves"] => push_names(text, &tree.leaves(alloc)?)?,
        ["path_of", rev] => push_names(text, &tree.path_of(alloc, RevId::parse(rev)?)?)?,
        ["revision", rev] => push_revision(text, tree, RevId::parse(rev)?)?,
        _ => return Err("a read of trees".into()),
    }
    Ok(())
}

/// Each revision with its parent, and whether it is deleted and has its body.
fn push_nodes(text: &mut String, tree: Option<&RevTree>) -> Result<(), Fail> {
    let Some(tree) = tree else {
        text.push_str("no tree")?;
        return Ok(());
    };
    for node in tree.nodes() {
        push_node(text, node)?;
    }
    Ok(())
}

fn push_node(text: &mut String, node: &Node) -> Result<(), AllocError> {
    write!(text, "[{}", node.rev)?;
    push_parent(text, node.parent)?;
    push_word(text, node.deleted, "deleted")?;
    push_word(text, node.body.is_some(), "body")?;
    text.push(']')
}

fn push_winner(text: &mut String, tree: &RevTree) -> Result<(), AllocError> {
    let winner = tree.winner();
    write!(text, "{}", winner.rev)?;
    push_word(text, winner.deleted, "deleted")
}

/// What is known of one revision.
fn push_revision(text: &mut String, tree: &RevTree, rev: RevId) -> Result<(), AllocError> {
    push_word(text, tree.knows(rev), "known")?;
    push_parent(text, tree.parent_of(rev))?;
    push_word(text, tree.is_leaf(rev), "leaf")?;
    push_word(text, tree.is_deleted(rev), "deleted")?;
    push_word(text, tree.body_of(rev).is_some(), "body")
}

fn push_parent(text: &mut String, parent: Option<RevId>) -> Result<(), AllocError> {
    match parent {
        Some(parent) => write!(text, " over {parent}"),
        None => Ok(()),
    }
}

fn push_word(text: &mut String, holds: bool, word: &str) -> Result<(), AllocError> {
    if holds {
        write!(text, " {word}")?;
    }
    Ok(())
}
