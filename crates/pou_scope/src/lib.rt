// The names of a POU: its declarations, and which of them break no rule.
// - `chart_names`: the names of a chart's steps, actions and transitions
// - `constants`: the constants and types of a POU's declarations, and what their names break
// - `declarations`: what the declarations of a POU break, and the blocks of its instances
// - `declared`: the names of a POU in declared order
// - `in_file`: the declarations of a POU, each with what is known of it
// - `names`: the names of a POU, in the file around it
// - `pou_names`: the names of a POU, and what is known of each of its variables
// - `slots`: the names of a POU, each with the first variable of that name
// - `slotted`: the variables of a POU, and what is known of their names
// - `text_set`: sets of texts
// - `typed`: which variables are instances, and whose types break no rule
// - `variable_uses`: which variables of a POU use which, and which uses lead back to their user
#![tactic(auto)]

mod chart_names;
mod constants;
mod declarations;
mod declared;
mod in_file;
mod names;
mod pou_names;
mod slots;
mod slotted;
mod text_set;
mod typed;
mod variable_uses;

pub use declarations::{append_blocks, instance_of, walk_declarations};
pub use names::Names;
pub use pou_names::{NamesOfPou, names_of_pou};
pub use text_set::{add, has};
