// A search over the gates of a circuit that asks of one literal after another whether it holds under facts, decides only in the cone
// of gates below it, and keeps what it learns. Of what it finds nothing is owed: others test it.
// - `analysis`: what a conflict teaches
// - `asking`: questions
// - `clauses`: the clauses, one behind the other
// - `cones`: the variables that a question decides
// - `derivations`: what was derived, and from what
// - `gate_clauses`: the clauses of a circuit's gates
// - `learning`: what a conflict teaches is kept
// - `loading`: the cone of a question is loaded and widened
// - `marks`: what is known of variables while a conflict is analyzed
// - `propagation`: unit propagation, within the cone
// - `redundancy`: which literals of a learned clause follow from its others
// - `restarts`: when a question begins anew
// - `resting`: what literals that hold rest on
// - `search`: the search
// - `taking_back`: what holds by candidates is taken back, with all that was derived from it
// - `trail`: the literals that are true, with levels that can be taken back
// - `units`: the clauses of one literal that state what is true where no decision stands
// - `watches`: the clauses that watch each literal
#![tactic(auto)]

mod analysis;
mod asking;
mod clauses;
mod cones;
mod derivations;
mod gate_clauses;
mod learning;
mod loading;
mod marks;
mod propagation;
mod redundancy;
mod restarts;
mod resting;
mod search;
mod taking_back;
mod trail;
mod units;
mod watches;

pub use search::{Asked, ConeSearch};
