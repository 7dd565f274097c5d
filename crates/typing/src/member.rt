// Members of blocks.
use crate::scope::Meaning;
use naming::Role;

/// A variable of a POU: the place of its first cell there, what it stands for, what it is for, and of an instance its block, by
/// its number.
#[derive(Clone, Copy)]
pub struct Member {
    pub cell: usize,
    pub meaning: Meaning,
    pub role: Role,
    pub block: Option<usize>,
}
