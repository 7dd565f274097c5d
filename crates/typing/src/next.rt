// The next free place.

/// Where the next cells of a POU begin: those that stand before all others, which are in a FUNCTION those of what it answers and of
/// its inputs, and in another POU all but those of stored actions; and those of the others.
#[derive(Clone, Copy)]
pub struct Next {
    pub of_function: bool,
    pub front: usize,
    pub rest: usize,
}
