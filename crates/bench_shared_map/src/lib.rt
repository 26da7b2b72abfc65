//! Whole runs on a shared map, for the program in `benches/bench_shared_map.py`.
#![tactic(auto)]

use cow_index::CowMap;
use std::alloc::{AllocError, Global};

/// What a run answers that was refused memory.
const REFUSED: u64 = u64::MAX;

fn added(map: CowMap<u64, u64>, keys: &[u64]) -> Result<CowMap<u64, u64>, AllocError> {
    let mut map = map;
    for key in keys {
        map = map.insert(*key, *key)?;
    }
    Ok(map)
}

fn map_of(alloc: Global, keys: &[u64]) -> Result<CowMap<u64, u64>, AllocError> {
    added(CowMap::new(alloc), keys)
}

fn removed(map: CowMap<u64, u64>, keys: &[u64]) -> Result<CowMap<u64, u64>, AllocError> {
    let mut map = map;
    for key in keys {
        map = map.remove(key)?;
    }
    Ok(map)
}

/// Inserts the keys one after the other, and answers the height of the map.
#[unsafe(no_mangle)]
pub extern "C" fn shared_map_insert(alloc: Global, keys: &[u64]) -> u64 {
    match map_of(alloc, keys) {
        Ok(map) => map.height(),
        Err(_) => REFUSED,
    }
}

/// Inserts the keys, removes those of `asked`, and answers how many are left.
#[unsafe(no_mangle)]
pub extern "C" fn shared_map_remove(alloc: Global, keys: &[u64], asked: &[u64]) -> u64 {
    let Ok(map) = map_of(alloc, keys) else {
        return REFUSED;
    };
    match removed(map, asked) {
        Ok(map) => map.len(),
        Err(_) => REFUSED,
    }
}

/// Inserts the keys, looks up those of `asked`, and answers the sum of what it finds.
#[unsafe(no_mangle)]
pub extern "C" fn shared_map_get(alloc: Global, keys: &[u64], asked: &[u64]) -> u64 {
    let Ok(map) = map_of(alloc, keys) else {
        return REFUSED;
    };
    let mut sum = 0u64;
    for key in asked {
        sum = sum.wrapping_add(map.get(key).copied().unwrap_or(0));
    }
    sum
}

/// Inserts the keys, and answers the sum of the counts from each key of `asked`.
#[unsafe(no_mangle)]
pub extern "C" fn shared_map_count_from(alloc: Global, keys: &[u64], asked: &[u64]) -> u64 {
    let Ok(map) = map_of(alloc, keys) else {
        return REFUSED;
    };
    let mut sum = 0u64;
    for key in asked {
        sum = sum.wrapping_add(map.count_from(key));
    }
    sum
}

/// Inserts the keys, and answers the sum of all values that so many walks meet.
#[unsafe(no_mangle)]
pub extern "C" fn shared_map_walk(alloc: Global, keys: &[u64], walks: u32) -> u64 {
    let Ok(map) = map_of(alloc, keys) else {
        return REFUSED;
    };
    let mut sum = 0u64;
    for _ in 0..walks {
        for (_, value) in map.iter() {
            sum = sum.wrapping_add(*value);
        }
    }
    sum
}
