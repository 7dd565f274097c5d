// Lists of numbers, one for each key.
use propagation_trail::{low, read, write};
use std::alloc::{AllocError, Global};

/// The lists of all keys, one behind the other in one vector, and the place where each begins.
#[derive(Drop)]
pub struct Lists {
    starts: Vec<u32>,
    items: Vec<u32>,
}

// Where the list of each key begins; behind them, where the last ends.
fn starts_of(alloc: Global, keys: usize, pairs: &[(u32, u32)]) -> Result<Vec<u32>, AllocError> {
    let mut starts = vec![in alloc; 0u32; keys.saturating_add(1)]?;
    for (key, _) in pairs {
        let next = (*key as usize).wrapping_add(1);
        let count = read(starts.as_slice(), next, 0);
        write(starts.as_mut_slice(), next, count.wrapping_add(1));
    }
    let mut sum = 0u32;
    for start in starts.as_mut_slice() {
        sum = sum.wrapping_add(*start);
        *start = sum;
    }
    Ok(starts)
}

impl Lists {
    /// The lists of the keys below `keys`, from pairs of a key and a number, in the order of the pairs.
    pub fn new(alloc: Global, keys: usize, pairs: &[(u32, u32)]) -> Result<Lists, AllocError> {
        let starts = starts_of(alloc, keys, pairs)?;
        let mut ends = Vec::from_slice(alloc, starts.as_slice())?;
        let mut items = vec![in alloc; 0u32; pairs.len()]?;
        for (key, item) in pairs {
            let end = read(ends.as_slice(), *key as usize, u32::MAX);
            write(items.as_mut_slice(), end as usize, *item);
            write(ends.as_mut_slice(), *key as usize, end.wrapping_add(1));
        }
        Ok(Lists { starts, items })
    }

    /// The list of a key; empty where there is no such key.
    #[inline(always)]
    pub fn of(&self, key: usize) -> &[u32] {
        let starts = self.starts.as_slice();
        let start = read(starts, key, 0) as usize;
        let end = read(starts, key.wrapping_add(1), 0) as usize;
        if start <= end && end <= self.items.len() {
            &self.items.as_slice()[start..end]
        } else {
            &[]
        }
    }
}
