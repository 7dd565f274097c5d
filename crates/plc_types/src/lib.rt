// Types of data, ranges, operators and standard functions (IEC 61131-3, 2.3, 3.3.1 and 2.5.1.5); `proofs/` has the laws of types and ranges.
#![tactic(auto)]

mod data_type;
mod elementary;
mod function;
mod operator;
mod range;
mod value;

pub use data_type::DataType;
pub use elementary::Elementary;
pub use function::{Function, Shift, StandardFunction};
pub use operator::{Operator, UnaryOperator};
pub use range::Range;
pub use value::Value;
