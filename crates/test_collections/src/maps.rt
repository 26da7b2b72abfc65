//! Rows of a shared map, and of an older one that is kept.

use cow_index::{CowMap, Shared};
use std::alloc::{AllocError, Global};
use std::mem;
use std::test::Fail;

/// Each key with the same number as its value.
type Numbers = CowMap<u64, Shared<u64>>;

/// A call that makes one map from another, for a key.
#[derive(Clone, Copy)]
enum Call {
    Insert,
    Remove,
    IntoWith,
    IntoWithout,
}

#[derive(Drop)]
struct Maps {
    map: Numbers,
    kept: Numbers,
    /// The calls that made more than `4 * (height + 1)` nodes.
    above: u64,
}

/// What comes of each statement, and `;` after it.
pub(crate) fn told(alloc: Global, row: &str) -> Result<String, Fail> {
    let mut text = String::new(alloc);
    let mut maps = Maps::new(alloc);
    for statement in row.split(';') {
        let mut piece = String::new(alloc);
        maps.perform(alloc, statement, &mut piece)?;
        write!(text, "{};", piece.trim())?;
    }
    Ok(text)
}

impl Maps {
    fn new(alloc: Global) -> Maps {
        Maps {
            map: CowMap::new(alloc),
            kept: CowMap::new(alloc),
            above: 0,
        }
    }

    /// Does what a statement says, and reports what comes of it.
    fn perform(&mut self, alloc: Global, statement: &str, text: &mut String) -> Result<(), Fail> {
        let words: Vec<&str> = statement.split_whitespace().collect(alloc)?;
        match words.as_slice() {
            ["keep"] => self.keep(text),
            ["back"] => self.back(text),
            [word, from, end] => {
                let call = call_of(word)?;
                self.change_all(alloc, call, from.parse::<u64>()?, end.parse::<u64>()?)?;
                write!(text, "{} above", self.above)?;
                Ok(())
            }
            words => push_read(text, &self.map, words),
        }
    }

    /// Keeps the map as it is.
    fn keep(&mut self, text: &mut String) -> Result<(), Fail> {
        self.kept = self.map.share()?;
        write!(text, "{} nodes", self.kept.nodes_made())?;
        Ok(())
    }

    /// Goes back to the map that was kept.
    fn back(&mut self, text: &mut String) -> Result<(), Fail> {
        self.map = self.kept.share()?;
        write!(text, "{} keys", self.map.len())?;
        Ok(())
    }

    /// Makes a call for each key from one up to another.
    fn change_all(&mut self, alloc: Global, call: Call, from: u64, end: u64) -> Result<(), Fail> {
        for key in from..end {
            self.change(alloc, call, key)?;
        }
        Ok(())
    }

    fn change(&mut self, alloc: Global, call: Call, key: u64) -> Result<(), Fail> {
        let height = self.map.height();
        let map = mem::replace(&mut self.map, CowMap::new(alloc));
        self.map = changed(alloc, map, call, key)?;
        self.count(height);
        Ok(())
    }

    /// Counts the nodes of the call that made the map from one of that height.
    fn count(&mut self, before: u64) {
        let height = before.max(self.map.height());
        if self.map.nodes_made() > height.saturating_add(1).saturating_mul(4) {
            self.above = self.above.saturating_add(1);
        }
    }
}

/// The call of this name.
fn call_of(word: &str) -> Result<Call, Fail> {
    match word {
        "insert" => Ok(Call::Insert),
        "remove" => Ok(Call::Remove),
        "into_with" => Ok(Call::IntoWith),
        "into_without" => Ok(Call::IntoWithout),
        _ => Err("a call of maps".into()),
    }
}

/// The map after one call.
fn changed(alloc: Global, map: Numbers, call: Call, key: u64) -> Result<Numbers, AllocError> {
    match call {
        Call::Insert => map.insert(key, Shared::new(alloc, key)?),
        Call::Remove => map.remove(&key),
        Call::IntoWith => map.into_with(key, Shared::new(alloc, key)?),
        Call::IntoWithout => map.into_without(&key),
    }
}

/// What the map says of itself.
fn push_read(text: &mut String, map: &Numbers, words: &[&str]) -> Result<(), Fail> {
    match words {
        ["size"] => push_size(text, map)?,
        ["nodes_made"] => write!(text, "{}", map.nodes_made())?,
        ["walk"] => push_all(text, map)?,
        ["range_from", key] => push_from(text, map, key.parse::<u64>()?)?,
        ["count_from", key] => write!(text, "{}", map.count_from(&key.parse::<u64>()?))?,
        ["get", key] => push_value(text, map.get(&key.parse::<u64>()?))?,
        _ => return Err("a read of maps".into()),
    }
    Ok(())
}

/// How many keys there are, and whether the map is empty, and low: at most twice the binary digits of `len + 1`.
fn push_size(text: &mut String, map: &Numbers) -> Result<(), AllocError> {
    let digits = u64::BITS.saturating_sub(map.len().saturating_add(1).leading_zeros());
    write!(
        text,
        "{} keys, empty {}, low {}",
        map.len(),
        map.is_empty(),
        map.height() <= u64::from(digits).saturating_mul(2)
    )
}

fn push_all(text: &mut String, map: &Numbers) -> Result<(), AllocError> {
    for (key, value) in map.iter() {
        write!(text, " {key}:{}", *value.get())?;
    }
    Ok(())
}

fn push_from(text: &mut String, map: &Numbers, key: u64) -> Result<(), AllocError> {
    for (key, value) in map.range_from(&key) {
        write!(text, " {key}:{}", *value.get())?;
    }
    Ok(())
}

fn push_value(text: &mut String, value: Option<&Shared<u64>>) -> Result<(), AllocError> {
    match value {
        Some(value) => write!(text, "{}", *value.get()),
        None => text.push_str("none"),
    }
}
