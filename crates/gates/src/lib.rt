// Circuits of AND, XOR and MUX gates, each made once, by the rules that make as few as they can; their clauses, and what they mean.
// - `circuit`: circuits, and the gates that are made in them
// - `clauses`: the clauses of gates
// - `law`: what circuits mean
// - `literals`: true, false, and negations
// - `plan`: the rules by which a gate is made, or a literal stands for it
// - `store`: the gates in their order, each once, and where each is found again
// - `stored`: gates in 16 bytes each
#![tactic(auto)]

mod circuit;
mod clauses;
mod law;
mod literals;
mod plan;
mod store;
mod stored;

pub use circuit::{Circuit, GateFault};
pub use law::{law_clauses, law_growth, law_one_model, law_order, law_values};
pub use literals::{FALSE, TRUE};
pub use plan::{Plan, and_plan, mux_plan, or_plan, xor_plan};
