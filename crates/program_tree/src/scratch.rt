// What a place takes.
use plc_types::{Elementary, Range};

/// What a place takes: the elementary type whose numbers its values are, their range, and whether they are those of a
/// subrange, which takes no others. A place is that of a cell, or of a scratch cell, which a scan sets before it reads it, so
/// that no state has it.
#[derive(Clone, Copy)]
pub struct Scratch {
    pub kind: Elementary,
    pub range: Range,
    pub is_subrange: bool,
}
