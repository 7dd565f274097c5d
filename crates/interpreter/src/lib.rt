// The interpreter: expressions are evaluated and statements run as their meaning says.
// - `answers`: what a FUNCTION answers
// - `cells`: cells and their ranges
// - `charts`: one run of a chart
// - `evaluation`: the value of an expression, and whether its evaluation meets a fault
// - `markings`: markings of a chart
// - `outcome`: how statements end
// - `room`: room for calls and charts
// - `scope`: what evaluations and runs read
// - `selection`: the conditions of an IF and the entries of a CASE
// - `statements`: what statements do to the cells of their owner
// - `turns`: the turns of a FOR
#![tactic(auto)]

mod answers;
mod cells;
mod charts;
mod evaluation;
mod markings;
mod outcome;
mod room;
mod scope;
mod selection;
mod statements;
mod turns;

pub use evaluation::{Evaluated, evaluate};
pub use outcome::Outcome;
pub use room::add_room;
pub use scope::Scope;
pub use statements::run_all;
