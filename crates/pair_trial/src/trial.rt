// A pair on trial.
ghost use Rattle.std.specs.Prelude.{◌≡◌, IfOk, IsTrue};
ghost use Rattle.scan_replay.specs.Duos.{AreComparable, with_pair};
ghost use Rattle.pair_trial.specs.Trials.{setting_in};

use crate::ranges::{are_in_range, fits_lines};
use plc_types::Value;
use program_tree::Program;
use scan_model::{InputLine, Relation};
use scan_replay::Duo;
use std::alloc::{AllocError, Global};
use std::marker::Model;

/// Two programs, a relation between them, and a pair of their states: contracts see what scan_replay's `Duo` shows.
#[derive(Drop)]
pub struct Trial<'p> {
    old_program: &'p Program,
    new_program: &'p Program,
    relation: &'p Relation,
    duo: Duo<'p>,
}

impl<'p> Model for Trial<'p> {
    ghost use Rattle.std.specs.Prelude.{◌≡◌};
    ghost use Rattle.scan_replay.specs.Duos.{Compared};
    ghost use Rattle.program_tree.specs.contracts.typed.TypedStmt as stmt;
    ghost use Rattle.program_tree.specs.contracts.typed.TypedExpr as expr;
    ghost use Rattle.std.specs.Coded.{codes};

    ghost Value = { Compared };

    ghost coded = { Prim.hlevel (codes, stmt.the_row.coded, expr.the_row.coded) };

    ghost view = { λ t. t.duo };

    ghost invariant = { λ t. (t.duo.old_program ≡ t.old_program.now) × (t.duo.new_program ≡ t.new_program.now) × (t.duo.relation ≡ t.relation.now) };
}

#[tactic(auto, unfolding(queries::specs::Settings::setting_of))]
impl<'p> Trial<'p> {
    /// Both programs at their start.
    pub fn new(
        alloc: Global,
        old: &'p Program,
        new: &'p Program,
        relation: &'p Relation,
    ) -> Result<Trial<'p>, AllocError>
        requires { AreComparable old.now new.now relation.now }
        ensures old { IfOk result (λ t. t.old_program ≡ old.now) }
        ensures new { IfOk result (λ t. t.new_program ≡ new.now) }
        ensures relation { IfOk result (λ t. t.relation ≡ relation.now) }
    {
        let duo = Duo::new(alloc, old, new, relation)?;
        Ok(Trial {
            old_program: old,
            new_program: new,
            relation,
            duo,
        })
    }

    /// How many cells OLD has.
    pub fn old_cells(&self) -> usize
        ensures { result ≡ (setting_in self.now).old_cells }
    {
        self.old_program.cells.len()
    }

    /// How many cells NEW has.
    pub fn new_cells(&self) -> usize
        ensures { result ≡ (setting_in self.now).new_cells }
    {
        self.new_program.cells.len()
    }

    /// How many candidates there are.
    pub fn candidates(&self) -> usize
        ensures { result ≡ (setting_in self.now).candidates }
    {
        self.relation.candidates.len()
    }

    /// The inputs, of each of which a row has one number.
    pub fn inputs(&self) -> &[InputLine]
        ensures { result.now ≡ self.now.relation.inputs.items }
    {
        &self.relation.inputs
    }

    /// How many scans are searched from the start.
    pub fn depth(&self) -> u64
        ensures { result ≡ (setting_in self.now).depth }
    {
        self.relation.depth
    }

    /// How many steps spend a query.
    pub fn conflicts(&self) -> u64
        ensures { result ≡ (setting_in self.now).conflicts }
    {
        self.relation.conflicts
    }

    /// Whether each cell has one value, in its range.
    pub fn pair_fits(&self, old: &[Value], new: &[Value]) -> bool
        ensures { result ≡ (setting_in self.now).in_range (record { old = old.now; new = new.now }) }
    {
        are_in_range(&self.old_program.cells, old) && are_in_range(&self.new_program.cells, new)
    }

    /// Whether a row has one number for each input, in its range.
    pub fn row_fits(&self, row: &[Value]) -> bool
        ensures { result ≡ (setting_in self.now).fits row.now }
    {
        fits_lines(&self.relation.inputs, row)
    }

    /// Both programs at their start again.
    pub fn reset(&mut self)
        ensures { self.new ≡ with_pair (setting_in self.old).start self.old }
    {
        self.duo.reset();
    }

    /// Another state of each program.
    pub fn set_pair(&mut self, old: &[Value], new: &[Value])
        requires { IsTrue ((setting_in self.old).in_range (record { old = old.now; new = new.now })) }
        ensures { self.new ≡ with_pair (record { old = old.now; new = new.now }) self.old }
    {
        self.duo.set_pair(old, new);
    }

    /// Whether a row may come: its numbers fit, and every ENV clause holds once they are loaded.
    pub fn allowed(&mut self, row: &[Value]) -> bool
        ensures allowed { result ≡ (setting_in self.old).allowed row.now self.old.pair }
        ensures unchanged { self.new ≡ self.old }
    {
        self.duo.allowed(row)
    }

    /// Loads a row that is allowed, and runs both programs one scan.
    pub fn step(&mut self, row: &[Value])
        requires { IsTrue ((setting_in self.old).allowed row.now self.old.pair) }
        ensures { self.new ≡ with_pair ((setting_in self.old).after row.now self.old.pair) self.old }
    {
        self.duo.step(row);
    }

    /// Whether every RELATE clause holds.
    pub fn related(&self) -> bool
        ensures { result ≡ (setting_in self.now).related self.now.pair }
    {
        self.duo.related()
    }

    /// Whether a candidate holds, by its number, from 0.
    pub fn holds(&self, candidate: usize) -> bool
        ensures { result ≡ (setting_in self.now).holds candidate self.now.pair }
    {
        self.duo.holds(candidate)
    }
}
