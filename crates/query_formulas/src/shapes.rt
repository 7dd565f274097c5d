use plc_types::{Elementary, Range, Value};

/// What circuits have to know of a cell: the elementary type whose numbers its values are, whether a word of that type can lie
/// outside of its range, its range, and the value that it begins with.
#[derive(Clone, Copy)]
pub struct CellShape {
    pub kind: Elementary,
    pub bounded: bool,
    pub range: Range,
    pub initial: Value,
}
