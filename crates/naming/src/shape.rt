// What a type is.

/// What a type is, where it is told apart: for an enumeration, whether the names of its values break no rule.
#[derive(Clone, Copy)]
pub enum Shape {
    Elementary,
    Subrange,
    Named,
    Enumeration(bool),
}
