// How many flat statements POUs become.
use program_tree::Called;

/// Counts for the POUs that may be run and called, by their numbers: for each of them how many statements its run becomes, and
/// how many the body of a FUNCTION, where these are known.
#[derive(Clone, Copy)]
pub struct Counts<'a> {
    pub called: &'a [Called],
    pub runs: &'a [usize],
    pub bodies: &'a [usize],
}
