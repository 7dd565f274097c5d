// Whether candidates hold on all pairs of runs.
ghost use Rattle.std.specs.Prelude.{◌≡◌, ◌+◌, ◌<◌, ◌^◌, IfOk};
ghost use Rattle.program_tree.specs.View.{program_view};
ghost use Rattle.scan_model.specs.Pairs.{relation_view};
ghost use Rattle.scan_replay.specs.Duos.{AreComparable, with_pair};
ghost use Rattle.line_trials.specs.Held.{rows_of, runs_of, candidates_hold, held_along, held_on_runs};

use plc_types::Value;
use program_tree::Program;
use scan_model::Relation;
use scan_replay::Duo;
use std::alloc::{AllocError, Global};

// Whether so many candidates hold, from a number on.
fn candidates_hold(duo: &Duo<'_>, first: usize, count: usize) -> bool
    requires { first + count < 2 ^ 64 }
    ensures { result ≡ candidates_hold (relation_view duo.now.relation) first count duo.now.pair }
{
    for offset in 0..count {
        if !duo.holds(first + offset) {
            return false;
        }
    }
    true
}

// Whether they hold on the pair and along rows from there.
fn held_along(duo: &mut Duo<'_>, first: usize, count: usize, rows: &[Vec<Value>]) -> bool
    requires { first + count < 2 ^ 64 }
    ensures held { result ≡ held_along (program_view duo.old.old_program) (program_view duo.old.new_program) (relation_view duo.old.relation) first count (rows_of rows.now) duo.old.pair }
    ensures same { duo.new ≡ with_pair duo.new.pair duo.old }
{
    for row in rows {
        if !candidates_hold(duo, first, count) || !duo.allowed(row) {
            return false;
        }
        duo.step(row);
    }
    candidates_hold(duo, first, count)
}

/// Whether so many candidates of a relation hold, from a number on, on all pairs of runs, and all rows are allowed.
pub fn held_on_runs(
    alloc: Global,
    old: &Program,
    new: &Program,
    relation: &Relation,
    first: usize,
    count: usize,
    runs: &[Vec<Vec<Value>>],
) -> Result<bool, AllocError>
    requires comparable { AreComparable old.now new.now relation.now }
    requires fits { first + count < 2 ^ 64 }
    ensures { IfOk result (λ held. held ≡ held_on_runs (program_view old.now) (program_view new.now) (relation_view relation.now) first count (runs_of runs.now)) }
{
    let mut duo = Duo::new(alloc, old, new, relation)?;
    for run in runs {
        duo.reset();
        if !held_along(&mut duo, first, count, run) {
            return Ok(false);
        }
    }
    Ok(true)
}
