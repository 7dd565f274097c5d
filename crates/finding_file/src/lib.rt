// A finding as a file: its lines are written, each by one append, and read back in pieces.
#![tactic(auto)]

mod errors;
mod laws;
mod reader;
mod window;
mod writer;

pub use errors::{ReadErr, WriteErr};
pub use laws::law_written_is_next;
pub use reader::FindingReader;
pub use writer::FindingWriter;
