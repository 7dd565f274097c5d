// The names of a file: what each stands for, where types lead to, and the shapes of POUs.
// - `declaration_uses`: which declarations of a file use which, and which uses lead back to their user
// - `ends`: where the types of a file lead to
// - `file_names`: the scope of a file
// - `file_types`: the types of a file
// - `names`: the types and POUs of a file, and all names that it declares
// - `refusals`: judgements of rules on names
// - `scope_of_file`: what the uses of types, of their values and of POUs break in a file's scope
// - `table`: the names of a file, each with what it stands for first, and whether it is declared twice
// - `type_declarations`: what the declarations of types break, and the types of results
#![tactic(auto)]

mod declaration_uses;
mod ends;
mod file_names;
mod file_types;
mod names;
mod refusals;
mod scope_of_file;
mod table;
mod type_declarations;

pub use ends::end_at;
pub use names::{Declarations, list_declarations};
pub use refusals::{
    circular, misused, step_twice, too_deep, twice, unknown, unknown_action, unknown_qualifier,
    unknown_step,
};
pub use scope_of_file::{FileScope, file_scope};
pub use table::{Table, standing_by_number};
pub use type_declarations::{walk_results, walk_types};
