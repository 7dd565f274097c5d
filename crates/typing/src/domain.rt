// The domain of a type.
use plc_types::{DataType, Range, Value};

/// What a type says of its values: their data type, their range, whether it is a subrange, the value that a variable
/// begins with, and whether the type's declaration breaks no rule.
#[derive(Clone, Copy)]
pub struct Domain {
    pub kind: DataType,
    pub range: Range,
    pub is_subrange: bool,
    pub start: Value,
    pub whole: bool,
}
