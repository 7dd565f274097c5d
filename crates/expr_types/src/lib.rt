// The rules on the types of expressions that are broken, and the typed expressions that they stand for.
// - `alone`: names that stand alone
// - `amounts`: the amounts of shifts
// - `answers`: judging calls of FUNCTIONs (IEC 61131-3, 2.5.1)
// - `calls`: judging calls of standard functions (IEC 61131-3, 2.5.1.5)
// - `expressions`: judging expressions
// - `judged`: expressions that were judged
// - `typed_answers`: typed calls of FUNCTIONs
// - `typed_calls`: typed calls of standard functions
// - `typed_expressions`: typed expressions
// - `value_meanings`: what a name stands for that is a value of an enumeration
#![tactic(auto)]

mod alone;
mod amounts;
mod answers;
mod calls;
mod expressions;
mod judged;
mod typed_answers;
mod typed_calls;
mod typed_expressions;
mod value_meanings;

pub use alone::meaning_alone;
pub use expressions::{judge_and_synthesize, judge_condition, judge_expr, judge_meaning};
pub use judged::JudgedExpr;
pub use synthesized_types::{bool_type, kind_at, or_dint, place_of, range, type_of};
pub use typed_expressions::{cell_of, constant_of, meaning_read, type_expr};
pub use value_meanings::valued;
