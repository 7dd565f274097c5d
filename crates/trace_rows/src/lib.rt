// The rows of a trace: a JSON text of an array of arrays of whole numbers, read to one list of numbers. A UTF-8 mark may stand before it.
#![tactic(auto)]

mod marks;
mod number;
mod read;
mod rows;

pub use read::read_trace;
pub use rows::TraceRows;
