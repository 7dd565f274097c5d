// Entries of a table.
use crate::standing::Standing;

/// What the first declared of a name of a file stands for, and whether the file's scope has the name twice, the library's names among
/// them.
#[derive(Clone, Copy)]
pub struct Entry {
    pub standing: Standing,
    pub is_doubled: bool,
}
