//! Runs on a shared map of whole numbers.

use cow_index::CowMap;
use std::alloc::{AllocError, Global};
use std::ops::Range;

/// An odd factor, by which the keys come in an order that looks random.
const SCATTER: u64 = 0x9e37_79b9_7f4a_7c15;

/// The nodes that calls reported.
#[derive(Clone, Copy, Default)]
pub(crate) struct Nodes {
    pub(crate) made: u64,
    /// The calls that reported more than `4 * (height + 1)`.
    pub(crate) calls_above: u64,
}

impl Nodes {
    fn count(&mut self, before: &CowMap<u64, u64>, after: &CowMap<u64, u64>) {
        let height = before.height().max(after.height());
        let most = height.saturating_add(1).saturating_mul(4);
        self.made = self.made.saturating_add(after.nodes_made());
        if after.nodes_made() > most {
            self.calls_above = self.calls_above.saturating_add(1);
        }
    }
}

fn key(number: u64) -> u64 {
    number.wrapping_mul(SCATTER)
}

/// Inserts a key for each number.
pub(crate) fn added(
    map: CowMap<u64, u64>,
    numbers: Range<u64>,
    nodes: &mut Nodes,
) -> Result<CowMap<u64, u64>, AllocError> {
    let mut map = map;
    for number in numbers {
        let next = map.insert(key(number), number)?;
        nodes.count(&map, &next);
        map = next;
    }
    Ok(map)
}

/// Removes the key of each number.
pub(crate) fn removed(
    map: CowMap<u64, u64>,
    numbers: Range<u64>,
    nodes: &mut Nodes,
) -> Result<CowMap<u64, u64>, AllocError> {
    let mut map = map;
    for number in numbers {
        let next = map.remove(&key(number))?;
        nodes.count(&map, &next);
        map = next;
    }
    Ok(map)
}

/// Keeps the map of the first numbers, inserts the others and removes all, and answers the kept map
/// and how many keys are left of the other.
pub(crate) fn kept(
    alloc: Global,
    first: u64,
    all: u64,
) -> Result<(CowMap<u64, u64>, u64), AllocError> {
    let mut nodes = Nodes::default();
    let kept = added(CowMap::new(alloc), 0..first, &mut nodes)?;
    let more = added(kept.share()?, first..all, &mut nodes)?;
    let left = removed(more, 0..all, &mut nodes)?.len();
    Ok((kept, left))
}
