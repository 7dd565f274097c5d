// Which file a path leads to.
use std::fs::Metadata;
use std::os::unix::fs::MetadataExt;

/// A file of the system, the same by whatever path it is named: its device, and its number there.
#[derive(Clone, Copy, PartialEq)]
pub struct FileIdentity {
    device: u64,
    number: u64,
}

impl FileIdentity {
    /// Which file it is that the system says this of.
    pub fn of(metadata: &Metadata) -> Self {
        FileIdentity {
            device: metadata.dev(),
            number: metadata.ino(),
        }
    }
}
