// The typed program of a file's one PROGRAM.
ghost use Rattle.std.specs.Prelude.{◌≡◌, true, false, Some, IfOk, IfErr, OnOk};
ghost use Rattle.source_tree.specs.SyntaxView.{pou_view};
ghost use Rattle.program_tree.specs.View.{program_view};
ghost use Rattle.naming.specs.FileScope.{pou_at};
ghost use Rattle.decl_types.specs.Bodies.{file_in};
ghost use Rattle.typing.specs.Pous.{has_room};
ghost use Rattle.running_pous.specs.Stated.{stated_program};
ghost use Rattle.rules.specs.Faults.{IfRefused};
ghost use Rattle.st_types.specs.LargePous.{runs_large, IsRefusedIf};

use crate::bodies::pou_body;
use crate::called::stated_by;
use crate::cells::{cells_behind_fault, names_without_cell};
use crate::chart_places::charts_in;
use crate::checked::Checked;
use crate::running::too_large;
use decl_types::type_texts;
use pou_cells::PlacedPous;
use program_tree::Program;
use rules::Fault;
use source_tree::Pou;
use std::alloc::Global;

// The typed program of the PROGRAM of a number, or M5 where a POU that runs is large.
fn type_program(
    alloc: Global,
    placed: &PlacedPous<'_>,
    number: usize,
    program: &Pou,
) -> Result<Program, Fault>
    requires pou { pou_at (file_in placed.now.pous.domains) number ≡ Some (pou_view program.now) }
    requires room { has_room (file_in placed.now.pous.domains) number ≡ true }
    ensures typed { IfOk result (λ p. program_view p ≡ stated_program (file_in placed.now.pous.domains) number (pou_view program.now)) }
    ensures few { OnOk result (runs_large (file_in placed.now.pous.domains) number (pou_view program.now) ≡ false) }
    ensures refused { IfErr result (IfRefused (IsRefusedIf (runs_large (file_in placed.now.pous.domains) number (pou_view program.now)))) }
{
    if !placed.is_placed(number) {
        return Err(too_large());
    }
    let body = pou_body(alloc, placed, number, program)?;
    let called = stated_by(alloc, placed, &body)?;
    Ok(Program {
        name: String::from_str(alloc, program.name.text.as_str())?,
        cells: cells_behind_fault(alloc, placed, Some(""), false, number)?,
        charts: charts_in(alloc, placed, number)?,
        without_cell: names_without_cell(alloc, &placed.pous, number)?,
        types: type_texts(alloc, &placed.pous.domains.types)?,
        called,
        body,
    })
}

impl Checked<'_> {
    ghost use Rattle.std.specs.Prelude.{ℕ, []};
    ghost use Rattle.source_tree.specs.Syntax.{PouData};
    ghost use Rattle.scan_model.specs.InRange.{IsFitToRun};
    ghost use Rattle.file_bindings.specs.Bound.{program_number};
    ghost use Rattle.typing.specs.Pous.{broken_types};
    ghost use Rattle.st_types.specs.CheckedFiles.{file_checked};

    /// The typed program of the PROGRAM; or M5, where a POU that may run has more than 2^24 cells, or an instance of a block that has. Fails
    /// too where memory runs out.
    pub fn program(self, alloc: Global) -> Result<Program, Fault>
        ensures kept { broken_types (file_checked self.entry) ≡ [] }
        ensures room { (number : ℕ) → program_number (file_checked self.entry) ≡ Some number → has_room (file_checked self.entry) number ≡ true }
        ensures typed { IfOk result (λ r. (number : ℕ) → (p : PouData) → program_number (file_checked self.entry) ≡ Some number → pou_at (file_checked self.entry) number ≡ Some p → program_view r ≡ stated_program (file_checked self.entry) number p) }
        ensures fit { IfOk result (λ r. IsFitToRun (program_view r)) }
        ensures few { OnOk result ((number : ℕ) → (p : PouData) → program_number (file_checked self.entry) ≡ Some number → pou_at (file_checked self.entry) number ≡ Some p → runs_large (file_checked self.entry) number p ≡ false) }
        ensures refused { IfErr result (λ e. (number : ℕ) → (p : PouData) → program_number (file_checked self.entry) ≡ Some number → pou_at (file_checked self.entry) number ≡ Some p → IfRefused (IsRefusedIf (runs_large (file_checked self.entry) number p)) e) }
    {
        let Checked {
            pous,
            sizes,
            number,
        } = self;
        let program = pous.domains.types.names.pou(number);
        let placed = PlacedPous::new(alloc, pous, sizes)?;
        type_program(alloc, &placed, number, program)
    }
}
