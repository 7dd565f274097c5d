// The rules on types of statements and charts, and the typed statements that they stand for.
// - `connections`: calls of instances of FUNCTION_BLOCKs (IEC 61131-3, 2.5.2)
// - `constants`: constant expressions
// - `exits`: EXITs outside of FORs
// - `iteration`: what stands between FOR and DO
// - `labels`: the labels of a CASE
// - `laws`: laws of FORs
// - `returns`: whether a RETURN leaves typed statements
// - `seen_labels`: the labels of a CASE that were seen
// - `selection`: the selector of a CASE, and its labels
// - `statements`: judging statements, inside FORs whose control variables are the cells `controls`
// - `turns`: how many turns a FOR has, and whether it may have them
// - `typed_statements`: typed statements
#![tactic(auto)]

mod connections;
mod constants;
mod exits;
mod iteration;
mod labels;
mod laws;
mod returns;
mod seen_labels;
mod selection;
mod statements;
mod turns;
mod typed_statements;

pub use laws::turns_are_counted;
pub use statements::judge_list;
pub use typed_statements::type_list;
