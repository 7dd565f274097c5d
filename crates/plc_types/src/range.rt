// Ranges of values.
use crate::value::Value;

/// The least and the greatest value of a cell.
#[derive(Clone, Copy)]
pub struct Range {
    pub low: Value,
    pub high: Value,
}
