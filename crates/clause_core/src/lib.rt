// Literals, clauses and derivations, what makes a derivation right, and what a decider of formulas owes.
// - `assignment`: values of all variables
// - `check`: whether a step of a derivation is right
// - `clause`: clauses as rising lists of literals
// - `cnf`: formulas: clauses over so many variables
// - `covering`: clauses that are a part of another, and what stands for one that is held no more
// - `decider`: what a decider of formulas owes
// - `freshness`: whether a step's clause is fresh: no held one is a part of it, and unit propagation alone does not derive it
// - `gate`: AND, XOR and MUX of literals
// - `hints`: the numbers of the clauses that a step uses
// - `literal`: a variable, or its negation
// - `log`: derivations as they are noted
// - `propagation`: unit propagation over the whole list of clauses
// - `status`: what is known of a clause
// - `step`: steps of a derivation, and what they show
// - `truth`: what is known of each variable
#![tactic(auto)]

mod assignment;
mod check;
mod clause;
mod cnf;
mod covering;
mod decider;
mod freshness;
mod gate;
mod hints;
mod literal;
mod log;
mod propagation;
mod status;
mod step;
mod truth;

pub use assignment::Assignment;
pub use check::{Outcome, check_step, clause_at, follow_hints};
pub use clause::{Clause, is_rising, is_within, law_set_of};
pub use cnf::Cnf;
pub use covering::{is_always, is_covered, is_covered_by, is_held_part, is_part};
pub use decider::{Decided, Decider};
pub use freshness::{is_fresh, is_unit, shows_fresh};
pub use gate::Gate;
pub use hints::Hints;
pub use literal::Lit;
pub use log::{Entry, Log};
pub use propagation::{Pass, all_closed, propagate, propagate_once};
pub use status::{Status, clause_status};
pub use step::{Step, law_accepted, law_refutes};
pub use truth::{Truth, assume_false, clear, put_false, put_true, reopen, unassigned, value};
