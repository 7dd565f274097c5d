// A pair of states under a relation: rows of inputs, and clauses.
ghost use Rattle.std.specs.Prelude.{◌≡◌, ◌≤◌, ◌++◌, IfOk, length};
ghost use Rattle.program_tree.specs.View.{expr_view, exprs_view, cells_view, program_view};
ghost use Rattle.scan_model.specs.Scans.{ranges_of};
ghost use Rattle.scan_model.specs.Pairs.{Pair, start, scanned_both, range_of_line, fits_lines, loaded_one, loaded, holds, all_hold, candidates_view, clauses_among};
ghost use Rattle.scan_model.specs.Candidates.{candidate_holds};
ghost use Rattle.scan_replay.specs.Machines.{room_of_program};
ghost use Rattle.scan_replay.specs.States.{pair_of};

use crate::cells::{is_in_range, put};
use crate::run::scan;
use crate::states::{copy_over, reset, start};
use crate::two_states::States;
use interpreter::evaluate;
use plc_types::{Range, Value};
use program_tree::{Program, TypedExpr};
use scan_model::{Candidate, InputLine};
use std::alloc::{AllocError, Global};

/// Both programs as they begin.
pub fn start_both(alloc: Global, old: &Program, new: &Program) -> Result<States, AllocError>
    ensures { IfOk result (λ s. pair_of s ≡ start (program_view old.now) (program_view new.now)) }
{
    Ok(States {
        of_old: start(alloc, &old.cells)?,
        of_new: start(alloc, &new.cells)?,
    })
}

/// Both programs as they begin, again.
pub fn reset_both(old: &Program, new: &Program, states: &mut States)
    requires old { length states.old.of_old.items ≡ length old.now.cells.items }
    requires new { length states.old.of_new.items ≡ length new.now.cells.items }
    ensures { pair_of states.new ≡ start (program_view old.now) (program_view new.now) }
{
    reset(&old.cells, &mut states.of_old);
    reset(&new.cells, &mut states.of_new);
}

/// Other states.
pub fn copy_both(states: &mut States, old: &[Value], new: &[Value])
    requires old { length states.old.of_old.items ≡ length old.now }
    requires new { length states.old.of_new.items ≡ length new.now }
    ensures old { states.new.of_old.items ≡ old.now }
    ensures new { states.new.of_new.items ≡ new.now }
{
    copy_over(&mut states.of_old, old);
    copy_over(&mut states.of_new, new);
}

/// Runs both programs one scan, each with the ranges of its cells and room on the stack.
pub fn scan_both(
    old: &Program,
    new: &Program,
    old_ranges: &[Range],
    new_ranges: &[Range],
    states: &mut States,
    stack: &mut [Value],
)
    requires old_ranges { old_ranges.now ≡ ranges_of (cells_view old.now.cells.items) }
    requires new_ranges { new_ranges.now ≡ ranges_of (cells_view new.now.cells.items) }
    requires old_room { room_of_program old.now ≤ length stack.old }
    requires new_room { room_of_program new.now ≤ length stack.old }
    ensures { pair_of states.new ≡ scanned_both (program_view old.now) (program_view new.now) (pair_of states.old) }
{
    scan(old, old_ranges, &mut states.of_old, stack);
    scan(new, new_ranges, &mut states.of_new, stack);
}

/// Whether a row has one number for each INPUT line, in its range.
pub fn fits_lines(lines: &[InputLine], row: &[Value]) -> bool
    ensures { result ≡ fits_lines lines.now row.now }
{
    if lines.len() != row.len() {
        return false;
    }
    for i in 0..lines.len() {
        if !is_in_range(row[i], range_of_line(lines[i])) {
            return false;
        }
    }
    true
}

fn range_of_line(line: InputLine) -> Range
    ensures { result ≡ range_of_line line }
{
    match line {
        InputLine::Both { range, .. } => range,
        InputLine::Old { range, .. } => range,
        InputLine::New { range, .. } => range,
    }
}

/// Puts each number of a row into the cells that its line names.
pub fn load(lines: &[InputLine], row: &[Value], states: &mut States)
    ensures { pair_of states.new ≡ loaded lines.now row.now (pair_of states.old) }
{
    for (i, line) in lines.iter().enumerate() {
        if i >= row.len() {
            return;
        }
        load_one(*line, row[i], states);
    }
}

fn load_one(line: InputLine, number: Value, states: &mut States)
    ensures { pair_of states.new ≡ loaded_one line number (pair_of states.old) }
{
    match line {
        InputLine::Both { old, new, .. } => {
            put(&mut states.of_old, old, number);
            put(&mut states.of_new, new, number);
        }
        InputLine::Old { place, .. } => put(&mut states.of_old, place, number),
        InputLine::New { place, .. } => put(&mut states.of_new, place, number),
    }
}

/// Whether every clause holds.
pub fn all_hold(clauses: &[TypedExpr], states: &States) -> bool
    ensures { result ≡ all_hold (exprs_view clauses.now) (pair_of states.now) }
{
    for clause in clauses {
        if !holds(clause, states) {
            return false;
        }
    }
    true
}

/// Whether the clause of every candidate holds.
pub fn all_of_them_hold(candidates: &[Candidate], states: &States) -> bool
    ensures { result ≡ all_hold (clauses_among candidates.now) (pair_of states.now) }
{
    for candidate in candidates {
        if !holds(&candidate.clause, states) {
            return false;
        }
    }
    true
}

/// Whether the candidate of a number, from 0, holds; without a candidate nothing does.
pub fn candidate_holds(candidates: &[Candidate], number: usize, states: &States) -> bool
    ensures { result ≡ candidate_holds (candidates_view candidates.now) number (pair_of states.now) }
{
    if number < candidates.len() {
        holds(&candidates[number].clause, states)
    } else {
        false
    }
}

fn holds(clause: &TypedExpr, states: &States) -> bool
    ensures { result ≡ holds (expr_view clause.now) (pair_of states.now) }
{
    let given = evaluate(clause, &states.of_old, &states.of_new);
    given.value == 1 && !given.fault
}
