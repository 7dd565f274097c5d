// Unit propagation by two watched literals a clause, with levels that can be taken back; it knows when nothing is left to propagate.
//
// arena        the clauses, which never change
// watch        which literals a clause watches, and the watches of a literal
// visit        the clauses that watch a literal which became false
// levels       what may be done with the trail at any time
// attach       two literals of a new clause to watch
// adding       new clauses
// closed       whether nothing is left to propagate
// covered      clauses of which a later one is a part
// propagator   all of it together
// - `adding`: new clauses
// - `arena`: the clauses, one behind the other in one vector
// - `attach`: two literals of a new clause to watch
// - `closed`: whether nothing is left to propagate
// - `covered`: clauses of which a later one is a part, and which need not be looked at
// - `levels`: what may be done with the trail at any time
// - `propagator`: unit propagation by two watched literals a clause
// - `visit`: the clauses that watch a literal which became false
// - `watch`: which literals a clause watches, and the watches of a literal
#![tactic(auto)]

mod adding;
mod arena;
mod attach;
mod closed;
mod covered;
mod levels;
mod propagator;
mod visit;
mod watch;

pub use propagation_trail::{Cause, ClauseRef, Code, low, read, write};
pub use propagator::Propagator;
