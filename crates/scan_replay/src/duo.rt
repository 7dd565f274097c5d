// Two programs that run under a relation, scan by scan.
ghost use Rattle.std.specs.Prelude.{◌≡◌, ◌<◌, IsTrue, IfOk, pos, length, slice_index_or};
ghost use Rattle.program_tree.specs.View.{program_view};
ghost use Rattle.scan_model.specs.Pairs.{start};
ghost use Rattle.scan_replay.specs.Duos.{AreComparable, with_pair, start_of, IsInRangeOf, allows, pair_after, is_pair_related, has_candidate, program_of, state_of};

use crate::cells::ranges_of;
use crate::pair::{
    all_hold, all_of_them_hold, candidate_holds, copy_both, fits_lines, load, reset_both,
    scan_both, start_both,
};
use crate::states::value_at;
use crate::two_states::States;
use interpreter::add_room;
use plc_types::{Range, Value};
use program_tree::Program;
use scan_model::{Relation, Side};
use std::alloc::{AllocError, Global};
use std::marker::Model;

/// Two programs, a relation between them, and a state of each, its values in their cells' ranges.
#[derive(Drop)]
pub struct Duo<'p> {
    old_program: &'p Program,
    new_program: &'p Program,
    relation: &'p Relation,
    states: States,
    // room for the states with a row loaded
    tried: States,
    old_ranges: Vec<Range>,
    new_ranges: Vec<Range>,
    // room for calls and charts
    stack: Vec<Value>,
}

impl<'p> Model for Duo<'p> {
    ghost use Rattle.std.specs.Prelude.{◌≡◌, ◌≤◌, length};
    ghost use Rattle.program_tree.specs.View.{cells_view, program_view};
    ghost use Rattle.scan_model.specs.Scans.{ranges_of};
    ghost use Rattle.scan_model.specs.Pairs.{IsPairInRange};
    ghost use Rattle.scan_replay.specs.Duos.{Compared, AreComparable};
    ghost use Rattle.scan_replay.specs.Machines.{room_of_program};
    ghost use Rattle.scan_replay.specs.States.{pair_of};
    ghost use Rattle.program_tree.specs.contracts.typed.TypedStmt as stmt;
    ghost use Rattle.program_tree.specs.contracts.typed.TypedExpr as expr;
    ghost use Rattle.std.specs.Coded.{codes};

    ghost Value = { Compared };

    ghost coded = { Prim.hlevel (codes, stmt.the_row.coded, expr.the_row.coded) };

    ghost view = { λ d. record { old_program = d.old_program.now; new_program = d.new_program.now; relation = d.relation.now; pair = pair_of d.states } };

    ghost invariant = { λ d. AreComparable d.old_program.now d.new_program.now d.relation.now
        × IsPairInRange (program_view d.old_program.now) (program_view d.new_program.now) (pair_of d.states)
        × IsPairInRange (program_view d.old_program.now) (program_view d.new_program.now) (pair_of d.tried)
        × (d.old_ranges.items ≡ ranges_of (cells_view d.old_program.now.cells.items))
        × (d.new_ranges.items ≡ ranges_of (cells_view d.new_program.now.cells.items))
        × (room_of_program d.old_program.now ≤ length d.stack.items)
        × (room_of_program d.new_program.now ≤ length d.stack.items) };
}

impl<'p> Duo<'p> {
    /// Both programs at their start.
    pub fn new(
        alloc: Global,
        old: &'p Program,
        new: &'p Program,
        relation: &'p Relation,
    ) -> Result<Duo<'p>, AllocError>
        requires { AreComparable old.now new.now relation.now }
        ensures old { IfOk result (λ d. d.old_program ≡ old.now) }
        ensures new { IfOk result (λ d. d.new_program ≡ new.now) }
        ensures relation { IfOk result (λ d. d.relation ≡ relation.now) }
        ensures start { IfOk result (λ d. d.pair ≡ start (program_view old.now) (program_view new.now)) }
    {
        let states = start_both(alloc, old, new)?;
        let tried = start_both(alloc, old, new)?;
        let old_ranges = ranges_of(alloc, &old.cells)?;
        let new_ranges = ranges_of(alloc, &new.cells)?;
        let mut stack = Vec::new(alloc);
        add_room(&old.called, &old.body, &mut stack)?;
        add_room(&new.called, &new.body, &mut stack)?;
        Ok(Duo {
            old_program: old,
            new_program: new,
            relation,
            states,
            tried,
            old_ranges,
            new_ranges,
            stack,
        })
    }

    /// Both programs at their start again.
    pub fn reset(&mut self)
        ensures { self.new ≡ with_pair (start_of self.old) self.old }
    {
        reset_both(self.old_program, self.new_program, &mut self.states);
    }

    /// Another state of each program.
    pub fn set_pair(&mut self, old: &[Value], new: &[Value])
        requires { IsInRangeOf self.old (record { old = old.now; new = new.now }) }
        ensures { self.new ≡ with_pair (record { old = old.now; new = new.now }) self.old }
    {
        copy_both(&mut self.states, old, new);
    }

    /// Whether a row may come: its numbers fit their lines, and every ENV clause holds once they are loaded.
    pub fn allowed(&mut self, row: &[Value]) -> bool
        ensures allowed { result ≡ allows self.old row.now }
        ensures unchanged { self.new ≡ self.old }
    {
        if !fits_lines(&self.relation.inputs, row) {
            return false;
        }
        copy_both(&mut self.tried, &self.states.of_old, &self.states.of_new);
        load(&self.relation.inputs, row, &mut self.tried);
        all_hold(&self.relation.environment, &self.tried)
    }

    /// Loads a row that is allowed, and runs both programs one scan.
    pub fn step(&mut self, row: &[Value])
        requires { IsTrue (allows self.old row.now) }
        ensures pair { self.new ≡ with_pair (pair_after self.old row.now) self.old }
        ensures in_range { IsInRangeOf self.new self.new.pair }
    {
        load(&self.relation.inputs, row, &mut self.states);
        scan_both(
            self.old_program,
            self.new_program,
            &self.old_ranges,
            &self.new_ranges,
            &mut self.states,
            &mut self.stack,
        );
    }

    /// Whether every RELATE clause holds.
    pub fn related(&self) -> bool
        ensures { result ≡ is_pair_related self.now }
    {
        all_of_them_hold(self.relation.relate_clauses(), &self.states)
    }

    /// Whether a candidate holds, by its number, from 0; a number without a candidate never does.
    pub fn holds(&self, candidate: usize) -> bool
        ensures { result ≡ has_candidate self.now candidate }
    {
        candidate_holds(&self.relation.candidates, candidate, &self.states)
    }

    /// The values of the cells of a program, in order.
    pub fn state(&self, side: Side) -> &[Value]
        ensures { result.now ≡ state_of side self.now.pair }
    {
        match side {
            Side::Old => &self.states.of_old,
            Side::New => &self.states.of_new,
        }
    }

    /// The value of a cell of a program, by its place.
    pub fn value(&self, side: Side, cell: usize) -> Value
        requires { cell < length (program_of side self.now).cells.items }
        ensures { result ≡ slice_index_or (state_of side self.now.pair) cell (pos 0) }
    {
        match side {
            Side::Old => value_at(&self.states.of_old, cell),
            Side::New => value_at(&self.states.of_new, cell),
        }
    }
}
