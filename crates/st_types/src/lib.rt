// From a file with its names bound to its typed program, or to the first rule on types that the file breaks.
// - `judged_file`, `checked`: whether a file breaks a rule on types, and one that breaks none
// - `bodies`, `charts`: bodies judged and typed
// - `running`: the bodies of the POUs that may run; `called`: the POUs that may be called, of which some run
// - `cells`, `chart_places`: the cells of POUs, and where charts stand among them
// - `program`, `outlines`: the typed program, and its outline, which spreads no frame
#![tactic(auto)]

mod bodies;
mod called;
mod cells;
mod chart_places;
mod charts;
mod checked;
mod judged_file;
mod outlines;
mod program;
mod running;

pub use checked::Checked;
pub use judged_file::check;
