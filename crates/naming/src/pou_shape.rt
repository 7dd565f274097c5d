// What is known of a POU by its number.

/// What a POU is: a FUNCTION, and whether the type of its result breaks no rule; a FUNCTION_BLOCK; or a PROGRAM.
#[derive(Clone, Copy)]
pub enum PouShape {
    Function(bool),
    Block,
    Program,
}
