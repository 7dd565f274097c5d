// All forms, the strongest first.
use crate::guarded::add_guarded;
use crate::maps::add_maps;
use crate::unions::add_unions;
use plc_types::Value;
use proposal_forms::{
    Proposal, add_apart, add_bits, add_bounds, add_bounds_beside, add_counts, add_equal,
    add_exclusive, add_flags, add_junctions, add_last_own, add_opposite, add_reaches, add_scaled,
    add_shapes, add_sums, add_sums_of_two, add_sums_of_types,
};
use scan_model::Side;
use seen_values::{Facts, Seen, Subject, facts_of};
use std::alloc::{AllocError, Global};

// The forms that tie the cells of one program to those of the other; in a second round, behind the last own cells.
fn add_ties(
    facts: &mut Facts<'_>,
    edges: &[Value],
    is_second: bool,
    found: &mut Vec<Proposal>,
) -> Result<(), AllocError> {
    add_equal(facts, is_second, found)?;
    add_opposite(facts, found)?;
    add_flags(facts, found)?;
    add_bits(facts, found)?;
    add_maps(facts, found)?;
    let mut left = Vec::new(facts.alloc);
    add_sums_of_two(facts, &mut left, found)?;
    add_sums_of_types(facts, found)?;
    add_sums(facts, left.as_slice(), found)?;
    add_scaled(facts, left.as_slice(), found)?;
    add_shapes(facts, left.as_slice(), edges, found)?;
    add_junctions(facts, Side::New, found)?;
    add_junctions(facts, Side::Old, found)?;
    add_reaches(facts, edges, Side::Old, Side::New, found)?;
    add_reaches(facts, edges, Side::New, Side::Old, found)?;
    add_unions(facts, Side::Old, Side::New, found)?;
    add_unions(facts, Side::New, Side::Old, found)
}

// The forms on one program.
fn add_others(
    facts: &Facts<'_>,
    edges: &[Value],
    found: &mut Vec<Proposal>,
) -> Result<(), AllocError> {
    add_counts(facts, Side::Old, found)?;
    add_counts(facts, Side::New, found)?;
    add_bounds(facts, edges, 0, found)?;
    add_bounds_beside(facts, edges, found)?;
    add_apart(facts, found)?;
    add_exclusive(facts, Side::Old, found)?;
    add_exclusive(facts, Side::New, found)?;
    add_bounds(facts, edges, 1, found)
}

/// Clauses that held on all pairs that were seen, the strongest forms first. The numbers that stand in the texts rise. Where there are
/// more than `room`, the last own cells of each class come before all others, so that each class is tied before one is tied twice.
pub fn proposals(
    alloc: Global,
    seen: &Seen,
    subjects: &[Subject],
    edges: &[Value],
    room: usize,
) -> Result<Vec<Proposal>, AllocError> {
    let mut found = Vec::new(alloc);
    let mut facts = facts_of(alloc, seen, subjects)?;
    add_ties(&mut facts, edges, false, &mut found)?;
    add_others(&facts, edges, &mut found)?;
    if found.len() <= room {
        add_guarded(&facts, edges, room, &mut found)?;
        return Ok(found);
    }
    let mut first = Vec::new(alloc);
    let mut facts = facts_of(alloc, seen, subjects)?;
    add_last_own(&facts, &mut first)?;
    add_ties(&mut facts, edges, true, &mut first)?;
    add_others(&facts, edges, &mut first)?;
    add_guarded(&facts, edges, room, &mut first)?;
    Ok(first)
}
