// The reader of expressions and statements: each call reads what the grammar says at its place.
// - `call`: calls of functions, from behind their names on (IEC 61131-3, 2.5.1.1)
// - `connection`: calls of blocks, from behind their parenthesis on (IEC 61131-3, 2.5.2.1 and 3.3.2)
// - `cursor`: steps over single tokens
// - `expressions`: expressions, by descent through the levels of operators
// - `initial_values`: initial values, which labels are too
// - `iteration`: what stands between FOR and DO (IEC 61131-3, 3.3.2.4)
// - `literal`: literals (IEC 61131-3, 2.2.1)
// - `path`: paths of names
// - `selection`: labels of a CASE, and where they may stand (IEC 61131-3, 3.3.2.3)
// - `statement`: statements (IEC 61131-3, 3.3.2)
#![tactic(auto)]

mod call;
mod connection;
mod cursor;
mod expressions;
mod initial_values;
mod iteration;
mod literal;
mod path;
mod selection;
mod statement;

pub use cursor::{after, expect, named, numbered, opened, part_word, refuse, token, upper};
pub use expressions::expression;
pub use initial_values::{initial, initial_value};
pub use statement::statements;
