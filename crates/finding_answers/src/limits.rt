// How a finding is read.

/// How many bytes a finding may have.
pub const MOST_BYTES: u64 = 1_073_741_824;

/// How many bytes are read at once.
pub const PIECE: usize = 65_536;
