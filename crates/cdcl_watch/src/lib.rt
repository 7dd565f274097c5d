// A decider that is fast: two watched literals a clause, and restarts. Of its search nothing is asked.
// - `activity_heap`: variables in a heap by their activity
// - `analysis`: what a conflict teaches
// - `explanation`: what derives a learned clause
// - `following`: the search along a guide, which derives its clauses in turn
// - `gates`: the gates of a formula that says what a circuit does
// - `goals`: what is decided first
// - `guide`: clauses that a decision derives first
// - `marks`: marks on variables
// - `order`: the order of decisions
// - `redundancy`: which literals of a learned clause follow from its others
// - `subsumption`: which derived clauses a new one is a part of
// - `watch_search`: the search of conflict-driven clause learning by watched literals
// - `watched`: the fast decider
#![tactic(auto)]

mod activity_heap;
mod analysis;
mod explanation;
mod following;
mod gates;
mod goals;
mod guide;
mod marks;
mod order;
mod redundancy;
mod subsumption;
mod watch_search;
mod watched;

pub use activity_heap::ActivityHeap;
pub use guide::Guide;
pub use watched::{Watched, decide_guided};
