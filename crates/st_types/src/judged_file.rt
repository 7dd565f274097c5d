// What a file whose names are bound breaks of the rules on types.
ghost use Rattle.std.specs.Prelude.{◌≡◌, ℕ, [], map, true, Some, IfOk, IfErr, OnOk};
ghost use Rattle.rules.specs.Rules.{first_in};
ghost use Rattle.source_tree.specs.SyntaxView.{file_view};
ghost use Rattle.file_bindings.specs.Bound.{program_number};
ghost use Rattle.decl_types.specs.Bodies.{file_in};
ghost use Rattle.pou_cells.specs.Placing.{capped};
ghost use Rattle.typing.specs.Places.{sizes_of};
ghost use Rattle.typing.specs.Pous.{broken_types, has_room};
ghost use Rattle.typing.specs.Faults.{IsFaultOf};
ghost use Rattle.st_types.specs.CheckedFiles.{file_checked};

use crate::bodies::judge_pous;
use crate::checked::Checked;
use decl_types::judge_types;
use file_bindings::Resolved;
use pou_cells::{Pous, capped_sizes, has_room};
use rules::{Fault, Refusal, Rule};
use std::alloc::{AllocError, Global};

// What a file breaks first.
fn judge_file(alloc: Global, pous: &Pous<'_>) -> Result<Option<Refusal>, AllocError>
    ensures { IfOk result (λ first. first ≡ first_in (broken_types (file_in pous.now.domains))) }
{
    let types = judge_types(&pous.domains);
    let judged = judge_pous(alloc, pous, types)?;
    Ok(judged.first)
}

// The sizes of a file's POUs, or the first rule on types that is broken, and where none is, M2.
fn test_pous(alloc: Global, pous: &Pous<'_>, number: usize) -> Result<Vec<usize>, Fault>
    ensures refused { IfErr result (IsFaultOf (file_in pous.now.domains) number) }
    ensures kept { OnOk result (broken_types (file_in pous.now.domains) ≡ []) }
    ensures room { OnOk result (has_room (file_in pous.now.domains) number ≡ true) }
    ensures sizes { IfOk result (λ sizes. sizes.items ≡ map capped (sizes_of (file_in pous.now.domains))) }
{
    if let Some(refusal) = judge_file(alloc, pous)? {
        return Err(Fault::Refused(refusal));
    }
    let sizes = capped_sizes(alloc, pous)?;
    let room = has_room(pous, &sizes, number);
    if !room {
        return Err(Fault::Refused(Refusal {
            rule: Rule::TooManyCells,
            at: 0,
        }));
    }
    Ok(sizes)
}

/// A file whose names are bound (IEC 61131-3, 3.3), where it breaks no rule on types and its PROGRAM has room; or the first rule on
/// types that the file breaks, and where it breaks none but the PROGRAM has too many cells, M2. Fails too where memory runs out.
pub fn check<'p>(alloc: Global, names: &'p Resolved<'p>) -> Result<Checked<'p>, Fault>
    ensures refused { IfErr result (λ e. (number : ℕ) → program_number (file_view names.now.file.now) ≡ Some number → IsFaultOf (file_view names.now.file.now) number e) }
    ensures file { IfOk result (λ c. file_checked c ≡ file_view names.now.file.now) }
    ensures kept { OnOk result (broken_types (file_view names.now.file.now) ≡ []) }
    ensures room { OnOk result ((number : ℕ) → program_number (file_view names.now.file.now) ≡ Some number → has_room (file_view names.now.file.now) number ≡ true) }
{
    let number = names.program();
    let pous = Pous::new(alloc, names)?;
    let sizes = test_pous(alloc, &pous, number)?;
    Ok(Checked {
        pous,
        sizes,
        number,
    })
}
