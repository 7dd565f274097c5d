// The outline of a typed program, which tells which frames are long and spreads none.
ghost use Rattle.std.specs.Prelude.{◌≡◌, if◌then◌else◌, IfOk};
ghost use Rattle.std.specs.List.{list_any};
ghost use Rattle.source_tree.specs.SyntaxView.{pou_view};
ghost use Rattle.program_tree.specs.View.{stmts_view, called_view, all_called_view, program_view};
ghost use Rattle.naming.specs.FileScope.{pou_at};
ghost use Rattle.decl_types.specs.Bodies.{file_in};
ghost use Rattle.st_types.specs.Outlines.{long_body, outlined_body, is_long, outlined_of, outlined_if, outlined_by, outlined_program};

use crate::bodies::type_body;
use crate::checked::Checked;
use decl_types::pou_at;
use pou_cells::{PouScope, Pous, size_among};
use program_tree::{Called, Frame, Program, Turns, TypedStmt};
use source_tree::{Pou, PouType};
use std::alloc::{AllocError, Global};

// A frame of more cells is long: a call of its FUNCTION alone becomes more than 200,000 flat statements.
const MOST_CELLS: usize = 200_001;

// Whether a POU has more cells than that.
fn is_long(sizes: &[usize], number: usize) -> bool
    ensures { result ≡ is_long sizes.now number }
{
    size_among(sizes, Some(number)) > MOST_CELLS
}

// Two nested FORs, which become more than 200,000 flat statements.
fn long_body(alloc: Global) -> Result<Vec<TypedStmt>, AllocError>
    ensures { IfOk result (λ list. stmts_view list.items ≡ long_body) }
{
    let turns = Turns {
        count: 500,
        control: 0,
        first: 0,
        step: 0,
    };
    let inner = TypedStmt::For(turns, Vec::new(alloc));
    let outer = TypedStmt::For(turns, vec![in alloc; inner]?);
    Ok(vec![in alloc; outer]?)
}

// The typed statements of a body, where each block counts as one without cells.
fn outlined_body(
    alloc: Global,
    pous: &Pous<'_>,
    number: usize,
    pou: &Pou,
) -> Result<Vec<TypedStmt>, AllocError>
    ensures { IfOk result (λ list. stmts_view list.items ≡ outlined_body (file_in pous.now.domains) number (pou_view pou.now)) }
{
    let scope = PouScope { pous, number };
    let uses = pous.domains.types.names.numbers();
    type_body(alloc, &scope, uses, &pou.body)
}

// The body of a FUNCTION, or one that is long where its frame is.
fn function_body(
    alloc: Global,
    pous: &Pous<'_>,
    sizes: &[usize],
    number: usize,
    pou: &Pou,
) -> Result<Vec<TypedStmt>, AllocError>
    ensures { IfOk result (λ list. stmts_view list.items
        ≡ (if is_long sizes.now number then long_body else outlined_body (file_in pous.now.domains) number (pou_view pou.now))) }
{
    if is_long(sizes, number) {
        return long_body(alloc);
    }
    outlined_body(alloc, pous, number, pou)
}

fn outlined_of(
    alloc: Global,
    pous: &Pous<'_>,
    sizes: &[usize],
    number: usize,
    pou: &Pou,
) -> Result<Called, AllocError>
    ensures { IfOk result (λ called. called_view called ≡ outlined_of (file_in pous.now.domains) sizes.now number (pou_view pou.now).pou_type (pou_view pou.now)) }
{
    match pou.pou_type {
        PouType::Function(_) => {
            let frame = Frame {
                types: Vec::new(alloc),
                ranges: Vec::new(alloc),
                start: Vec::new(alloc),
            };
            let body = function_body(alloc, pous, sizes, number, pou)?;
            Ok(Called::Function(frame, body))
        }
        PouType::FunctionBlock | PouType::Program => {
            let body = outlined_body(alloc, pous, number, pou)?;
            Ok(Called::Block(body))
        }
    }
}

fn outlined_if(
    alloc: Global,
    pous: &Pous<'_>,
    sizes: &[usize],
    number: usize,
) -> Result<Called, AllocError>
    ensures { IfOk result (λ called. called_view called ≡ outlined_if (file_in pous.now.domains) sizes.now number (pou_at (file_in pous.now.domains) number)) }
{
    match pou_at(pous.domains.types.names, number) {
        None => Ok(Called::Block(Vec::new(alloc))),
        Some(pou) => outlined_of(alloc, pous, sizes, number, pou),
    }
}

// The POUs that are reached and may be called.
fn outlined_by(alloc: Global, pous: &Pous<'_>, sizes: &[usize]) -> Result<Vec<Called>, AllocError>
    ensures { IfOk result (λ list. all_called_view list.items ≡ outlined_by (file_in pous.now.domains) sizes.now) }
{
    let mut list = Vec::new(alloc);
    for number in &pous.called {
        list.push(outlined_if(alloc, pous, sizes, *number)?)?;
    }
    Ok(list)
}

// The outline of a PROGRAM.
fn outlined_program(
    alloc: Global,
    pous: &Pous<'_>,
    sizes: &[usize],
    number: usize,
    program: &Pou,
) -> Result<Program, AllocError>
    ensures { IfOk result (λ p. program_view p ≡ outlined_program (file_in pous.now.domains) sizes.now number (pou_view program.now)) }
{
    Ok(Program {
        name: String::from_str(alloc, "")?,
        cells: Vec::new(alloc),
        charts: Vec::new(alloc),
        without_cell: Vec::new(alloc),
        types: Vec::new(alloc),
        called: outlined_by(alloc, pous, sizes)?,
        body: outlined_body(alloc, pous, number, program)?,
    })
}

// Whether some POU that may be called is long.
fn has_long(pous: &Pous<'_>, sizes: &[usize]) -> bool
    ensures { result ≡ list_any (is_long sizes.now) pous.now.called.items }
{
    for number in &pous.called {
        if is_long(sizes, *number) {
            return true;
        }
    }
    false
}

impl Checked<'_> {
    ghost use Rattle.std.specs.Prelude.{IfSome, is_some};
    ghost use Rattle.st_types.specs.CheckedFiles.{file_checked};
    ghost use Rattle.st_types.specs.Outlines.{IsOutline, has_long};

    /// The outline of the PROGRAM, where some POU that may be called has more than 200,001 cells; there is none elsewhere. It is made in
    /// the time of the text, whatever number of cells frames have.
    pub fn outline(&self, alloc: Global) -> Result<Option<Program>, AllocError>
        ensures outline { IfOk result (λ o. IfSome o (λ p. IsOutline (file_checked self.now) (program_view p))) }
        ensures there { IfOk result (λ o. is_some o ≡ has_long (file_checked self.now)) }
    {
        if !has_long(&self.pous, &self.sizes) {
            return Ok(None);
        }
        let program = self.pous.domains.types.names.pou(self.number);
        let outline = outlined_program(alloc, &self.pous, &self.sizes, self.number, program)?;
        Ok(Some(outline))
    }
}
