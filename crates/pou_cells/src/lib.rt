// What names stand for in the body of a POU, and where the cells of its variables stand.
// - `pous`: the POUs of a file, where each block counts as one without cells; of `tables`, `block_members`, `places` and `reached`
// - `sizes`: how many cells POUs have, and M2
// - `placed_pous`: the variables of POUs at their places, where blocks have their sizes
// - `scope_of_pou`, `placed_scope`: the scope of a body by each of these; names are found by `named_members`
// - `roles`: what variables are for
#![tactic(auto)]

mod block_members;
mod named_members;
mod placed_pous;
mod placed_scope;
mod places;
mod pous;
mod reached;
mod roles;
mod scope_of_pou;
mod sizes;
mod tables;

pub use placed_pous::PlacedPous;
pub use placed_scope::PlacedScope;
pub use places::{first_place, first_places, places_behind, size_among};
pub use pous::Pous;
pub use roles::{
    active_first, has_cell, is_constant, is_front, is_stored_action, is_temporary, part_in,
};
pub use scope_of_pou::PouScope;
pub use sizes::{capped_sizes, has_room};
