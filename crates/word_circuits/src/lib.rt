// Whole numbers as words of literals, and the operations of a program on them as they make gates: each equal to its definition.
// - `bits`: operations bit by bit
// - `choices`: one of two words, the lesser, the greater, and the absolute value
// - `comparisons`: comparisons of words
// - `convert`: words of other widths
// - `divide`: quotients and remainders
// - `products`: products
// - `shifts`: shifts and rotations
// - `sums`: sums, differences and negations
// - `words`: constants, negated words, and the highest bit
#![tactic(auto)]

mod bits;
mod choices;
mod comparisons;
mod convert;
mod divide;
mod products;
mod shifts;
mod sums;
mod words;

pub use bits::{BitOperator, bitwise, combine};
pub use choices::{abs, choose, max, min, sel};
pub use comparisons::{Comparison, compare, equal, is_zero, less, outside};
pub use convert::{any, resize};
pub use divide::{Part, division};
pub use products::mul;
pub use shifts::{rol, ror, shl, shr};
pub use sums::{Sum, add, neg, sub};
pub use words::{constant, not, top, zeros};
