// The flat form of a program.
ghost use Rattle.std.specs.Prelude.{◌≡◌, IfOk, MatchResult, IsTrue};
ghost use Rattle.program_tree.specs.View.{cells_view, program_view};
ghost use Rattle.rules.specs.Faults.{IfRefused};
ghost use Rattle.scan_model.specs.InRange.{IsFitToRun};
ghost use Rattle.flat_core.specs.FlatView.{flat_program_view};
ghost use Rattle.flat_form.specs.FlatLaws.{LeavesTheSame};
ghost use Rattle.flat_form.specs.FlatPrograms.{flat_program, is_short};
ghost use Rattle.node_core.specs.TypedFlats.{IsTypedFlat};
ghost use Rattle.typed_programs.specs.Programs.{IsTypedProgram};
ghost use Rattle.fb_inline.specs.Refusals.{IsTooLong};

use crate::leaving::NO_FLAGS;
use crate::puts::put_number;
use crate::statements::flatten_all;
use flat_charts::{FlatScope, Owner};
use flat_core::Flat;
use flat_count::is_short;
use flat_form::idle_blocks;
use program_tree::{Cell, Program};
use rules::{Fault, Refusal, Rule};
use std::alloc::{AllocError, Global};

/// The flat form of a typed program, which is typed too; none of one that has more than 200,000 statements (M5), which are counted before
/// any is built.
pub fn flatten(alloc: Global, program: &Program) -> Result<Flat, Fault>
    requires fit { IsFitToRun (program_view program.now) }
    requires typed { IsTypedProgram (program_view program.now) }
    ensures list { IfOk result (λ f. flat_program_view f ≡ flat_program (program_view program.now)) }
    ensures typed { IfOk result (λ f. IsTypedFlat (flat_program_view f)) }
    ensures meaning { IfOk result (λ f. LeavesTheSame (program_view program.now) (flat_program_view f)) }
    ensures refused { MatchResult result (λ f. IsTrue (is_short (program_view program.now))) (IfRefused (IsTooLong (program_view program.now))) }
{
    if !is_short(alloc, program)? {
        return Err(Fault::Refused(Refusal {
            rule: Rule::TooManyStatements,
            at: 0,
        }));
    }
    let flat = flat_program(alloc, program)?;
    Ok(flat)
}

// The flat form of a typed program, which keeps the rules of flat programs.
fn flat_program(alloc: Global, program: &Program) -> Result<Flat, AllocError>
    requires fit { IsFitToRun (program_view program.now) }
    requires typed { IsTypedProgram (program_view program.now) }
    ensures { IfOk result (λ f. flat_program_view f ≡ flat_program (program_view program.now)) }
{
    let idle = idle_blocks(&program.called, alloc)?;
    let mut scratch = Vec::new(alloc);
    let mut body = Vec::new(alloc);
    put_number(&mut body, 0, 0)?;
    let scope = FlatScope {
        cells: program.cells.len(),
        owner: Owner::Program,
        base: 0,
        called: &program.called,
        idle: &idle,
        below: program.called.len(),
    };
    flatten_all(
        &program.body,
        &scope,
        NO_FLAGS,
        &mut scratch,
        &mut body,
        alloc,
    )?;
    Ok(Flat {
        cells: copy_cells(&program.cells, alloc)?,
        scratch,
        body,
    })
}

fn copy_cells(cells: &[Cell], alloc: Global) -> Result<Vec<Cell>, AllocError>
    ensures { IfOk result (λ copies. cells_view copies.items ≡ cells_view cells.now) }
{
    let mut copies = Vec::new(alloc);
    for cell in cells {
        let copy = cell.copy(alloc)?;
        copies.push(copy)?;
    }
    Ok(copies)
}
