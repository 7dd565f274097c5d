// An order in which each of some things that use one another stands behind those that it uses, and which of them use themselves, also
// through others.
#![tactic(auto)]

mod circular;
mod depth_first;
mod laws;
mod searching;
mod taking;

pub use circular::{circular_uses, stands_in_circle, uses_in_circle};
pub use laws::{
    has_each, is_below_length, leads_where_it_reaches, none_reaches_itself, some_reaches_itself,
    stands_behind_its_uses, stands_once,
};
pub use taking::order;
