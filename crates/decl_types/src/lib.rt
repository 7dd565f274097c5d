// The types that a file declares, the domains of declarations and their initial values.
// - `blocks`: the POUs of a file by their numbers, and the blocks of instances
// - `domains`: the domains of the types of a file, and what their declarations break
// - `elementary_domains`: which values types allow
// - `file_types`: the types of a file, and what its names stand for as values
// - `initial_values`: the values that variables begin with
// - `judged_types`: what types break where they are spelled, and the values that they allow
// - `names_of_types`: the names of the values of a file's types
// - `own_domains`: the domains of types as they are spelled, and what their declarations break
// - `subranges`: subranges of the integer types (IEC 61131-3, 2.3.3)
// - `told`: what is told of the declarations of POUs
#![tactic(auto)]

mod blocks;
mod domains;
mod elementary_domains;
mod file_types;
mod initial_values;
mod judged_types;
mod names_of_types;
mod own_domains;
mod subranges;
mod told;

pub use blocks::{function_number, pou_at};
pub use domains::Domains;
pub use judged_types::judge_types;
pub use names_of_types::type_texts;
pub use told::{Told, judge_told, told_in};
