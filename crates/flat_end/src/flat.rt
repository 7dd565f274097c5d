// The program that a text states, handed on to its flat form.
ghost use Rattle.std.specs.Prelude.{◌≡◌, ℕ, List, IfOk, IfErr, IsTrue};
ghost use Rattle.program_tree.specs.View.{program_view};
ghost use Rattle.scan_model.specs.InRange.{IsFitToRun};
ghost use Rattle.flat_core.specs.FlatView.{flat_program_view};
ghost use Rattle.flat_form.specs.FlatPrograms.{flat_program, is_short};
ghost use Rattle.flat_form.specs.FlatLaws.{LeavesTheSame};
ghost use Rattle.source_tree.specs.SyntaxView.{file_view};
ghost use Rattle.rules.specs.declared.rule.Rule.TheVariants.{TooManyStatements};
ghost use Rattle.front_end.specs.Texts.{HasFile, AreNamesSound, StatesProgram};
ghost use Rattle.node_core.specs.TypedFlats.{IsTypedFlat};
ghost use Rattle.rules.specs.Faults.{IfRefused};
ghost use Rattle.st_types.specs.CheckedFiles.{file_checked};
ghost use Rattle.typed_programs.specs.Programs.{IsTypedProgram};
ghost use Rattle.flat_end.specs.FlatTexts.{HasNoFlatForm};

use fb_inline::flatten;
use flat_core::Flat;
use flat_count::is_short;
use front_end::{checked_of, file_of, names_of, program_of};
use program_tree::Program;
use rules::{Fault, Refusal, Rule};
use source_tree::SourceFile;
use st_names::Resolved;
use st_types::Checked;
use std::alloc::{AllocError, Global};

/// A program and its flat form.
#[derive(Drop)]
pub struct Accepted {
    pub program: Program,
    pub flat: Flat,
}

// Whether a file's program is too long by the outline of its FUNCTIONs with long frames, so that these need not be spread.
fn is_outline_long(alloc: Global, checked: &Checked<'_>) -> Result<bool, AllocError>
    requires { AreNamesSound (file_checked checked.now) }
    ensures { IfOk result (λ long. IsTrue long → (text : List ℕ) → HasFile text (file_checked checked.now) → HasNoFlatForm text (record { rule = TooManyStatements; at = 0 })) }
{
    match checked.outline(alloc)? {
        None => Ok(false),
        Some(program) => {
            let short = is_short(alloc, &program)?;
            Ok(!short)
        }
    }
}

// The program of a text's file that breaks no rule, unless its outline is too long.
fn program_by_outline(alloc: Global, checked: Checked<'_>) -> Result<Program, Fault>
    requires { AreNamesSound (file_checked checked) }
    ensures program { IfOk result (λ p. (text : List ℕ) → HasFile text (file_checked checked.entry) → StatesProgram text (program_view p)) }
    ensures fit { IfOk result (λ p. IsFitToRun (program_view p)) }
    ensures typed { IfOk result (λ p. (text : List ℕ) → HasFile text (file_checked checked.entry) → IsTypedProgram (program_view p)) }
    ensures refused { IfErr result (λ e. (text : List ℕ) → HasFile text (file_checked checked.entry) → IfRefused (HasNoFlatForm text) e) }
{
    let long = is_outline_long(alloc, &checked)?;
    if long {
        return Err(Fault::Refused(Refusal {
            rule: Rule::TooManyStatements,
            at: 0,
        }));
    }
    match program_of(alloc, checked) {
        Ok(program) => Ok(program),
        Err(Fault::Refused(refusal)) => Err(Fault::Refused(refusal)),
        Err(Fault::Memory) => Err(Fault::Memory),
    }
}

// The program of a text's file whose names are bound, unless its outline is too long.
fn short_program(alloc: Global, names: &Resolved<'_>) -> Result<Program, Fault>
    requires { AreNamesSound (file_view names.now.file.now) }
    ensures program { IfOk result (λ p. (text : List ℕ) → HasFile text (file_view names.now.file.now) → StatesProgram text (program_view p)) }
    ensures fit { IfOk result (λ p. IsFitToRun (program_view p)) }
    ensures typed { IfOk result (λ p. (text : List ℕ) → HasFile text (file_view names.now.file.now) → IsTypedProgram (program_view p)) }
    ensures refused { IfErr result (λ e. (text : List ℕ) → HasFile text (file_view names.now.file.now) → IfRefused (HasNoFlatForm text) e) }
{
    match checked_of(alloc, names) {
        Ok(checked) => program_by_outline(alloc, checked),
        Err(Fault::Refused(refusal)) => Err(Fault::Refused(refusal)),
        Err(Fault::Memory) => Err(Fault::Memory),
    }
}

// The program of a text's file, unless its outline is too long.
fn short_file(alloc: Global, file: &SourceFile) -> Result<Program, Fault>
    ensures program { IfOk result (λ p. (text : List ℕ) → HasFile text (file_view file.now) → StatesProgram text (program_view p)) }
    ensures fit { IfOk result (λ p. IsFitToRun (program_view p)) }
    ensures typed { IfOk result (λ p. (text : List ℕ) → HasFile text (file_view file.now) → IsTypedProgram (program_view p)) }
    ensures refused { IfErr result (λ e. (text : List ℕ) → HasFile text (file_view file.now) → IfRefused (HasNoFlatForm text) e) }
{
    match names_of(alloc, file) {
        Ok(names) => short_program(alloc, &names),
        Err(Fault::Refused(refusal)) => Err(Fault::Refused(refusal)),
        Err(Fault::Memory) => Err(Fault::Memory),
    }
}

// The program that a text states, unless its outline is too long.
fn accept_short(alloc: Global, text: &[u8]) -> Result<Program, Fault>
    ensures program { IfOk result (λ p. StatesProgram text.now (program_view p)) }
    ensures fit { IfOk result (λ p. IsFitToRun (program_view p)) }
    ensures typed { IfOk result (λ p. IsTypedProgram (program_view p)) }
    ensures refused { IfErr result (IfRefused (HasNoFlatForm text.now)) }
{
    match file_of(alloc, text) {
        Ok(file) => short_file(alloc, &file),
        Err(Fault::Refused(refusal)) => Err(Fault::Refused(refusal)),
        Err(Fault::Memory) => Err(Fault::Memory),
    }
}

/// The program that a text states and its flat form, or the first rule that it breaks: those of `accept_text`, and then that on the
/// number of flat statements (M5). Each program that a text states is typed, as `flatten` asks, and so is its flat form.
pub fn accept_flat(alloc: Global, text: &[u8]) -> Result<Accepted, Fault>
    ensures program { IfOk result (λ a. StatesProgram text.now (program_view a.program)) }
    ensures fit { IfOk result (λ a. IsFitToRun (program_view a.program)) }
    ensures typed { IfOk result (λ a. IsTypedProgram (program_view a.program)) }
    ensures flat { IfOk result (λ a. flat_program_view a.flat ≡ flat_program (program_view a.program)) }
    ensures typed_flat { IfOk result (λ a. IsTypedFlat (flat_program_view a.flat)) }
    ensures short { IfOk result (λ a. IsTrue (is_short (program_view a.program))) }
    ensures meaning { IfOk result (λ a. LeavesTheSame (program_view a.program) (flat_program_view a.flat)) }
    ensures refused { IfErr result (IfRefused (HasNoFlatForm text.now)) }
{
    let program = accept_short(alloc, text)?;
    match flatten(alloc, &program) {
        Ok(flat) => Ok(Accepted { program, flat }),
        Err(Fault::Refused(refusal)) => Err(Fault::Refused(refusal)),
        Err(Fault::Memory) => Err(Fault::Memory),
    }
}
