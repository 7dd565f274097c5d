// The uses that lead back to their user.
ghost use Rattle.std.specs.Prelude.{◌≡◌, ◌↔◌, ◌==◌, ◌&&◌, ◌<◌, filter, length, nat_lt, nat_le, slice_index, IfOk, IsTrue};
ghost use Rattle.std.specs.List.{list_all};
ghost use Rattle.call_order.specs.Uses.{Graph, graph_of, uses_at, is_among, leads_to, HasCircles, Reaches};
ghost use Rattle.call_order.specs.Parts.{NeverFalls, AreFiltered, is_inside, AreHeads, ReachesAll};

use crate::depth_first::{Proposal, propose};
use crate::searching::{leads_to, reached};
use crate::taking::users_of;
use std::alloc::{AllocError, Global};

// What stands in a list at a number, 0 from its end on.
fn part_of(parts: &[usize], number: usize) -> usize
    ensures { result ≡ slice_index parts.now number }
{
    parts.get(number).copied().unwrap_or(0)
}

// ---- one by one

// Those of some numbers that lead to a user.
fn leading_back(
    alloc: Global,
    uses: &[Vec<usize>],
    user: usize,
    numbers: &[usize],
) -> Result<Vec<usize>, AllocError>
    requires { user < length uses.now }
    ensures { IfOk result (λ back. back.items ≡ filter (λ used. leads_to (graph_of uses.now) used user) numbers.now) }
{
    let mut back = Vec::new(alloc);
    for number in numbers {
        if leads_to(alloc, uses, *number, user)? {
            back.push(*number)?;
        }
    }
    Ok(back)
}

// For each number those of its uses that lead back to it, each found by a search of its own.
fn one_by_one(alloc: Global, uses: &[Vec<usize>]) -> Result<Vec<Vec<usize>>, AllocError>
    ensures { let g = graph_of uses.now in IfOk result (λ all. AreFiltered g (λ user used. leads_to g used user) (graph_of all.items)) }
{
    let mut all = Vec::new(alloc);
    for (user, numbers) in uses.iter().enumerate() {
        all.push(leading_back(alloc, uses, user, numbers)?)?;
    }
    Ok(all)
}

// ---- by parts

// Whether some uses of a number are below the length, and none leads to a part before its own.
fn never_falls_at(count: usize, parts: &[usize], part: usize, numbers: &[usize]) -> bool
    ensures { result ≡ list_all (λ used. nat_lt used count && nat_le part (slice_index parts.now used)) numbers.now }
{
    numbers
        .iter()
        .all(|used| *used < count && part <= part_of(parts, *used))
}

// Whether all uses are below the length, and none leads to a part before that of its user.
fn never_falls(uses: &[Vec<usize>], parts: &[usize]) -> bool
    ensures { IsTrue result → NeverFalls (graph_of uses.now) parts.now }
{
    for (number, numbers) in uses.iter().enumerate() {
        if !never_falls_at(uses.len(), parts, part_of(parts, number), numbers) {
            return false;
        }
    }
    true
}

// Those of some numbers that are in a part.
fn inside_part(
    alloc: Global,
    parts: &[usize],
    part: usize,
    numbers: &[usize],
) -> Result<Vec<usize>, AllocError>
    ensures { IfOk result (λ inside. inside.items ≡ filter (λ used. slice_index parts.now used == part) numbers.now) }
{
    let mut inside = Vec::new(alloc);
    for number in numbers {
        if part_of(parts, *number) == part {
            inside.push(*number)?;
        }
    }
    Ok(inside)
}

// For each number those of its uses that are in its part.
fn inside_parts(
    alloc: Global,
    uses: &[Vec<usize>],
    parts: &[usize],
) -> Result<Vec<Vec<usize>>, AllocError>
    ensures { IfOk result (λ all. AreFiltered (graph_of uses.now) (is_inside parts.now) (graph_of all.items)) }
{
    let mut all = Vec::new(alloc);
    for (user, numbers) in uses.iter().enumerate() {
        all.push(inside_part(alloc, parts, part_of(parts, user), numbers)?)?;
    }
    Ok(all)
}

// The numbers that are the heads of their parts.
fn heads_of(alloc: Global, parts: &[usize], heads: &[usize]) -> Result<Vec<usize>, AllocError>
    ensures { IfOk result (λ numbers. AreHeads parts.now heads.now numbers.items) }
{
    let mut numbers = Vec::new(alloc);
    for (number, part) in parts.iter().enumerate() {
        if part_of(heads, *part) == number {
            numbers.push(number)?;
        }
    }
    Ok(numbers)
}

// Whether the starts reach all numbers.
fn reaches_all(alloc: Global, uses: &[Vec<usize>], starts: &[usize]) -> Result<bool, AllocError>
    ensures { IfOk result (λ all. IsTrue all → ReachesAll (graph_of uses.now) starts.now) }
{
    let marks = reached(alloc, uses, starts)?;
    Ok(marks.iter().all(|mark| *mark))
}

// Whether these are parts in each of which all numbers lead to one another; inside are the uses in them.
fn are_parts(
    alloc: Global,
    uses: &[Vec<usize>],
    proposal: &Proposal,
    inside: &[Vec<usize>],
) -> Result<bool, AllocError>
    requires { AreFiltered (graph_of uses.now) (is_inside proposal.now.parts.items) (graph_of inside.now) }
    ensures { IfOk result (λ all. IsTrue all → HasCircles (graph_of uses.now) (graph_of inside.now)) }
{
    if !never_falls(uses, &proposal.parts) {
        return Ok(false);
    }
    let heads = heads_of(alloc, &proposal.parts, &proposal.heads)?;
    if !reaches_all(alloc, inside, &heads)? {
        return Ok(false);
    }
    let users = users_of(alloc, inside)?;
    let all = reaches_all(alloc, &users, &heads)?;
    Ok(all)
}

/// For each number those of its uses that lead back to it. They are read off from parts in each of which all numbers lead to one
/// another; should the parts that are proposed not be such, each use is looked at by itself.
pub fn circular_uses(alloc: Global, uses: &[Vec<usize>]) -> Result<Vec<Vec<usize>>, AllocError>
    ensures { IfOk result (λ circles. HasCircles (graph_of uses.now) (graph_of circles.items)) }
{
    let users = users_of(alloc, uses)?;
    let proposal = propose(alloc, uses, &users)?;
    let inside = inside_parts(alloc, uses, &proposal.parts)?;
    if are_parts(alloc, uses, &proposal, &inside)? {
        return Ok(inside);
    }
    one_by_one(alloc, uses)
}

/// Whether a number stands in a circle, of which its uses that lead back to it are given.
pub fn stands_in_circle(circles: &[Vec<usize>], number: usize) -> bool
    ensures { (g : Graph) → HasCircles g (graph_of circles.now) → IsTrue result ↔ Reaches g number number }
{
    match circles.get(number) {
        Some(back) => !back.is_empty(),
        None => false,
    }
}

/// Whether a number uses another in a circle.
pub fn uses_in_circle(circles: &[Vec<usize>], user: usize, used: usize) -> bool
    ensures { result ≡ is_among used (uses_at (graph_of circles.now) user) }
{
    match circles.get(user) {
        Some(back) => back.contains(&used),
        None => false,
    }
}
