// What is suggested for three texts.
ghost use Rattle.std.specs.Prelude.{IfOk, IfErr};
ghost use Rattle.program_tree.specs.View.{program_view};
ghost use Rattle.scan_model.specs.InRange.{IsFitToRun};
ghost use Rattle.command_files.specs.front_end.Texts.{StatesProgram, StatesNoProgram};
ghost use Rattle.command_files.specs.Refused.{IfRefused, IfRefusedOf};
ghost use Rattle.suggest_command.specs.Suggested.{IsSuggestedFor, IsRefusedFor};

use crate::leaving::leavings_in;
use crate::wording::wording_in;
use command_answers::Source;
use command_files::{AcceptError, accept_text, fault_of};
use program_tree::Program;
use std::alloc::Global;
use suggestion::{Effort, Leaving, Spelling, Suggestion, Wording, suggest, without_left};

// The program of a text.
fn program_of(alloc: Global, source: Source, text: &[u8]) -> Result<Program, AcceptError>
    ensures ok { IfOk result (λ p. StatesProgram text.now (program_view p)) }
    ensures fit { IfOk result (λ p. IsFitToRun (program_view p)) }
    ensures refused { IfErr result (IfRefusedOf source (StatesNoProgram text.now)) }
{
    match accept_text(alloc, text) {
        Ok(program) => Ok(program),
        Err(fault) => Err(fault_of(source, fault)),
    }
}

// The wording of texts that are accepted; were a text refused here, there would be none.
fn wording_or_none(alloc: Global, old: &[u8], new: &[u8], relation: &[u8]) -> Wording {
    match wording_in(alloc, old, new, relation) {
        Ok(wording) => wording,
        Err(_) => Wording {
            numbers: Vec::new(alloc),
            old: Spelling::new(alloc),
            new: Spelling::new(alloc),
        },
    }
}

/// The text of REL with INVARIANT lines behind it, each of which held on all pairs of runs of the programs that OLD and NEW state; or the
/// first rule that the first of the texts breaks.
pub fn suggest_for(
    alloc: Global,
    old: &[u8],
    new: &[u8],
    relation: &[u8],
    effort: Effort,
) -> Result<Suggestion, AcceptError>
    ensures suggested { IfOk result (IsSuggestedFor old.now new.now relation.now) }
    ensures refused { IfErr result (IfRefused (IsRefusedFor old.now new.now relation.now)) }
{
    let old_program = program_of(alloc, Source::Old, old)?;
    let new_program = program_of(alloc, Source::New, new)?;
    let wording = wording_or_none(alloc, old, new, relation);
    match suggest(
        alloc,
        &old_program,
        &new_program,
        relation,
        &wording,
        effort,
    ) {
        Ok(suggestion) => Ok(suggestion),
        Err(fault) => Err(fault_of(Source::Relation, fault)),
    }
}

// The scans of a finding that leave candidates; none where memory is wanting for them.
fn leavings_or_none(alloc: Global, finding: &[u8], old: &Program, new: &Program) -> Vec<Leaving> {
    match leavings_in(alloc, finding, old.cells.len(), new.cells.len()) {
        Ok(scans) => scans,
        Err(_) => Vec::new(alloc),
    }
}

/// The same suggestion, where those lines stand in comments that a finding on its text drops, with what leads out of them.
pub fn keep_for(
    alloc: Global,
    old: &[u8],
    new: &[u8],
    relation: &[u8],
    suggestion: Suggestion,
    finding: &[u8],
) -> Result<Suggestion, AcceptError>
    ensures suggested { IfOk result (IsSuggestedFor old.now new.now relation.now) }
    ensures refused { IfErr result (IfRefused (IsRefusedFor old.now new.now relation.now)) }
{
    let old_program = program_of(alloc, Source::Old, old)?;
    let new_program = program_of(alloc, Source::New, new)?;
    let wording = wording_or_none(alloc, old, new, relation);
    let scans = leavings_or_none(alloc, finding, &old_program, &new_program);
    match without_left(
        alloc,
        &old_program,
        &new_program,
        relation,
        &wording,
        suggestion,
        scans.as_slice(),
    ) {
        Ok(suggestion) => Ok(suggestion),
        Err(fault) => Err(fault_of(Source::Relation, fault)),
    }
}
