// What the commands say of a verdict, of reach and of a finding, and how long a finding may be.
#![tactic(auto)]

mod limits;
mod lines;
mod put;
mod show;
mod verdict;

pub use limits::{MOST_BYTES, PIECE};
pub use put::{put_invalid, put_judged, put_unjudged};
pub use verdict::put_verdict;
