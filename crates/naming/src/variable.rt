// A name of a POU, with what its declaration says of it.
use crate::role::Role;
use source_tree::{Expr, Name, TypeName};

/// A name of a POU as it is declared: one of the names of a declaration, or a FUNCTION's own; or that of a step, an action or a
/// transition of a chart, which has no type. Of a step and of an action its number among the steps or the actions of its chart, from 0;
/// of an instance the block, by its number; and whether the declaration breaks no rule on names. A declaration that is not yet looked at
/// has no block, and is not whole.
#[derive(Clone, Copy)]
pub struct Declared<'a> {
    pub name: &'a Name,
    pub role: Role,
    pub kind: Option<&'a TypeName>,
    pub initial: Option<&'a Expr>,
    pub part: Option<usize>,
    pub block: Option<usize>,
    pub whole: bool,
}
