// A machine that runs a program scan by scan.
ghost use Rattle.std.specs.Prelude.{◌≡◌, ◌<◌, ◌↔◌, IsTrue, IfOk, pos, length, slice_index_or};
ghost use Rattle.program_tree.specs.Cells.{inputs_of};
ghost use Rattle.program_tree.specs.View.{program_view, cells_view};
ghost use Rattle.scan_model.specs.Scans.{ranges_of, initial, scanned};
ghost use Rattle.scan_model.specs.InRange.{IsInRange, IsFitToRun};
ghost use Rattle.scan_replay.specs.Machines.{fits_inputs, with_inputs};

use crate::cells::ranges_of;
use crate::run::scan;
use crate::states::{copy_over, put_all, start, state_fits, value_at};
use interpreter::add_room;
use plc_types::{Range, Value};
use program_tree::Program;
use std::alloc::{AllocError, Global};
use std::marker::Model;

/// A program and its state, each value in its cell's range.
#[derive(Drop)]
pub struct Machine<'p> {
    program: &'p Program,
    inputs: Vec<usize>,
    state: Vec<Value>,
    ranges: Vec<Range>,
    // room for calls and charts
    stack: Vec<Value>,
}

impl<'p> Model for Machine<'p> {
    ghost use Rattle.scan_replay.specs.Machines.{Running, room_of_program};
    ghost use Rattle.scan_model.specs.Scans.{ranges_of};
    ghost use Rattle.scan_model.specs.InRange.{IsInRange, IsFitToRun};
    ghost use Rattle.program_tree.specs.Cells.{inputs_of};
    ghost use Rattle.program_tree.specs.View.{program_view, cells_view};
    ghost use Rattle.program_tree.specs.contracts.typed.TypedStmt as stmt;
    ghost use Rattle.std.specs.Prelude.{◌≡◌, ◌≤◌, length};
    ghost use Rattle.std.specs.Coded.{codes};

    ghost Value = { Running };

    ghost coded = { Prim.hlevel (codes, stmt.the_row.coded) };

    ghost view = { λ m. record { program = m.program.now; state = m.state.items } };

    ghost invariant = { λ m. IsFitToRun (program_view m.program.now) × (m.inputs.items ≡ inputs_of (program_view m.program.now)) × IsInRange (ranges_of (cells_view m.program.now.cells.items)) m.state.items
        × (m.ranges.items ≡ ranges_of (cells_view m.program.now.cells.items)) × (room_of_program m.program.now ≤ length m.stack.items) };
}

impl<'p> Machine<'p> {
    /// A machine at the program's start.
    pub fn new(alloc: Global, program: &'p Program) -> Result<Machine<'p>, AllocError>
        requires { IsFitToRun (program_view program.now) }
        ensures program { IfOk result (λ m. m.program ≡ program.now) }
        ensures start { IfOk result (λ m. m.state ≡ initial (cells_view program.now.cells.items)) }
    {
        let inputs = program.inputs(alloc)?;
        let state = start(alloc, &program.cells)?;
        let ranges = ranges_of(alloc, &program.cells)?;
        let mut stack = Vec::new(alloc);
        add_room(&program.called, &program.body, &mut stack)?;
        Ok(Machine {
            program,
            inputs,
            state,
            ranges,
            stack,
        })
    }

    /// One scan.
    pub fn run(&mut self)
        ensures program { self.new.program ≡ self.old.program }
        ensures state { self.new.state ≡ scanned (program_view self.old.program) self.old.state }
        ensures in_range { IsInRange (ranges_of (cells_view self.new.program.cells.items)) self.new.state }
    {
        scan(self.program, &self.ranges, &mut self.state, &mut self.stack);
    }

    /// Puts the numbers of a row into the VAR_INPUT cells, in declared order.
    pub fn load(&mut self, row: &[Value])
        requires { IsTrue (fits_inputs self.old.program row.now) }
        ensures program { self.new.program ≡ self.old.program }
        ensures state { self.new.state ≡ with_inputs self.old.program row.now self.old.state }
    {
        put_all(&self.inputs, row, &mut self.state);
    }

    /// Whether each cell has one of the values, in its range.
    pub fn state_fits(&self, values: &[Value]) -> bool
        ensures { IsTrue result ↔ IsInRange (ranges_of (cells_view self.now.program.cells.items)) values.now }
    {
        state_fits(&self.program.cells, values)
    }

    /// Another state.
    pub fn set_state(&mut self, values: &[Value])
        requires { IsInRange (ranges_of (cells_view self.old.program.cells.items)) values.now }
        ensures program { self.new.program ≡ self.old.program }
        ensures state { self.new.state ≡ values.now }
    {
        copy_over(&mut self.state, values);
    }

    /// The value of a cell, by its place.
    pub fn value(&self, cell: usize) -> Value
        requires { cell < length self.now.program.cells.items }
        ensures { result ≡ slice_index_or self.now.state cell (pos 0) }
    {
        value_at(&self.state, cell)
    }
}
