//! Rows of a shared list, and of an older one that is kept.

use shared_list::SharedList;
use std::alloc::{AllocError, Global};
use std::test::Fail;

#[derive(Drop)]
struct Lists {
    list: SharedList<u64>,
    kept: SharedList<u64>,
}

/// What comes of each statement, and `;` after it.
pub(crate) fn told(alloc: Global, row: &str) -> Result<String, Fail> {
    let mut text = String::new(alloc);
    let mut lists = Lists::new(alloc);
    for statement in row.split(';') {
        let mut piece = String::new(alloc);
        lists.perform(alloc, statement, &mut piece)?;
        write!(text, "{};", piece.trim())?;
    }
    Ok(text)
}

impl Lists {
    fn new(alloc: Global) -> Lists {
        Lists {
            list: SharedList::new(alloc),
            kept: SharedList::new(alloc),
        }
    }

    /// Does what a statement says, and reports what comes of it.
    fn perform(&mut self, alloc: Global, statement: &str, text: &mut String) -> Result<(), Fail> {
        let words: Vec<&str> = statement.split_whitespace().collect(alloc)?;
        match words.as_slice() {
            ["keep"] => self.keep(text),
            ["back"] => self.back(text),
            ["push", from, end] => self.push(from.parse::<u64>()?, end.parse::<u64>()?, text),
            ["size"] => push_size(text, &self.list),
            ["walk"] => push_all(text, &self.list),
            ["get_all"] => push_each(text, &self.list),
            ["get", n] => push_value(text, self.list.get(n.parse::<u64>()?)),
            _ => Err("a statement of lists".into()),
        }
    }

    /// Keeps the list as it is.
    fn keep(&mut self, text: &mut String) -> Result<(), Fail> {
        self.kept = self.list.share()?;
        write!(text, "{} nodes", self.kept.nodes_made())?;
        Ok(())
    }

    /// Goes back to the list that was kept.
    fn back(&mut self, text: &mut String) -> Result<(), Fail> {
        self.list = self.kept.share()?;
        write!(text, "{} values", self.list.len())?;
        Ok(())
    }

    /// Pushes each number from one up to another, and reports how many nodes that made.
    fn push(&mut self, from: u64, end: u64, text: &mut String) -> Result<(), Fail> {
        let mut nodes = 0u64;
        for number in from..end {
            self.list = self.list.push(number)?;
            nodes = nodes.saturating_add(self.list.nodes_made());
        }
        write!(text, "{nodes} nodes")?;
        Ok(())
    }
}

fn push_size(text: &mut String, list: &SharedList<u64>) -> Result<(), Fail> {
    write!(text, "{} values, empty {}", list.len(), list.is_empty())?;
    Ok(())
}

fn push_all(text: &mut String, list: &SharedList<u64>) -> Result<(), Fail> {
    for value in list.iter() {
        write!(text, " {value}")?;
    }
    Ok(())
}

/// The values, each by its number.
fn push_each(text: &mut String, list: &SharedList<u64>) -> Result<(), Fail> {
    for n in 0..list.len() {
        text.push(' ')?;
        push_value(text, list.get(n))?;
    }
    Ok(())
}

fn push_value(text: &mut String, value: Option<&u64>) -> Result<(), Fail> {
    match value {
        Some(value) => write!(text, "{value}")?,
        None => text.push_str("none")?,
    }
    Ok(())
}
