// Programs, flat programs, their nodes, gates and formulas, and relations as texts that case files can hold.
#![tactic(auto)]

mod expr_printing;
mod flat_printing;
mod formula_printing;
mod gate_printing;
mod node_printing;
mod relation_printing;

pub use flat_printing::print_flat;
pub use formula_printing::print_formula;
pub use gate_printing::print_gates;
pub use node_printing::print_nodes;
pub use relation_printing::{
    add_name, cell_names, print_candidates, print_clauses, print_lines, print_parts,
};
