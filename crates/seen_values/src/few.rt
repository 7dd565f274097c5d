// Cells that hold few values.
use crate::seen::Seen;
use crate::signature::mixed;
use plc_types::Value;
use std::alloc::{AllocError, Global};

/// The values that a cell was seen to hold, in the order in which they came; none where they are more than `most`.
pub fn few_values(
    alloc: Global,
    seen: &Seen,
    cell: usize,
    most: usize,
) -> Result<Option<Vec<Value>>, AllocError> {
    let mut values: Vec<Value> = Vec::new(alloc);
    for row in 0..seen.rows() {
        let value = seen.value(row, cell);
        if values.as_slice().contains(&value) {
            continue;
        }
        if values.len() >= most {
            return Ok(None);
        }
        values.push(value)?;
    }
    Ok(Some(values))
}

/// The checksum of a BOOL cell that is TRUE exactly where this cell has this value, or exactly where it has not.
pub fn indicator(seen: &Seen, cell: usize, value: Value, negated: bool) -> u64 {
    let mut sum = 0u64;
    for row in 0..seen.rows() {
        let holds = seen.value(row, cell) == value;
        sum = mixed(sum, if holds == negated { 0 } else { 1 });
    }
    sum
}
