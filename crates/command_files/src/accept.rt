// The programs and the relation that kept texts state.
ghost use Rattle.std.specs.Prelude.{◌≡◌, IfOk, IfErr, List, ℕ};
ghost use Rattle.program_tree.specs.View.{program_view};
ghost use Rattle.rules.specs.declared.rule.Rule.TheVariants.{TooLong};
ghost use Rattle.scan_model.specs.InRange.{IsFitToRun};
ghost use Rattle.scan_model.specs.Pairs.{relation_view, BelongsTo};
ghost use Rattle.front_end.specs.Texts.{StatesProgram, StatesNoProgram};
ghost use Rattle.command_files.specs.Kept.{IsKept};
ghost use Rattle.command_files.specs.Stating.{StatesRelation, StatesNoRelation};
ghost use Rattle.command_files.specs.Refused.{IfRefusedOf};

use crate::refusal::{AcceptError, fault_of, refused};
use command_answers::Source;
use front_end::{accept_text, tokens_of};
use program_tree::Program;
use relation_file::read_lines;
use rules::Rule;
use scan_model::Relation;
use std::alloc::Global;

/// The program that the text of a file states, or the first rule that it breaks.
pub fn program_in(
    alloc: Global,
    source: Source,
    text: &Option<Vec<u8>>,
) -> Result<Program, AcceptError>
    ensures ok { (bytes : List ℕ) → IsKept text.now bytes → IfOk result (λ p. StatesProgram bytes (program_view p)) }
    ensures fit { IfOk result (λ p. IsFitToRun (program_view p)) }
    ensures refused { (bytes : List ℕ) → IsKept text.now bytes → IfErr result (IfRefusedOf source (StatesNoProgram bytes)) }
{
    let Some(text) = text else {
        return Err(refused(source, Rule::TooLong));
    };
    match accept_text(alloc, text) {
        Ok(program) => Ok(program),
        Err(fault) => Err(fault_of(source, fault)),
    }
}

// The relation between two programs that a text states.
fn relation_of(
    alloc: Global,
    old: &Program,
    new: &Program,
    text: &[u8],
) -> Result<Relation, AcceptError>
    ensures ok { IfOk result (λ r. StatesRelation (program_view old.now) (program_view new.now) text.now (relation_view r)) }
    ensures belongs { IfOk result (λ r. BelongsTo (program_view old.now) (program_view new.now) (relation_view r)) }
    ensures refused { IfErr result (IfRefusedOf Source.Relation (StatesNoRelation (program_view old.now) (program_view new.now) text.now)) }
{
    let toks = match tokens_of(alloc, text) {
        Ok(toks) => toks,
        Err(fault) => return Err(fault_of(Source::Relation, fault)),
    };
    match read_lines(alloc, &toks, text.len(), old, new) {
        Ok(relation) => Ok(relation),
        Err(fault) => Err(fault_of(Source::Relation, fault)),
    }
}

/// The relation between two programs that the text of REL states, or the first rule that it breaks. Candidates may be many.
pub fn relation_in(
    alloc: Global,
    old: &Program,
    new: &Program,
    text: &Option<Vec<u8>>,
) -> Result<Relation, AcceptError>
    ensures ok { (bytes : List ℕ) → IsKept text.now bytes → IfOk result (λ r. StatesRelation (program_view old.now) (program_view new.now) bytes (relation_view r)) }
    ensures belongs { IfOk result (λ r. BelongsTo (program_view old.now) (program_view new.now) (relation_view r)) }
    ensures refused { (bytes : List ℕ) → IsKept text.now bytes → IfErr result (IfRefusedOf Source.Relation (StatesNoRelation (program_view old.now) (program_view new.now) bytes)) }
{
    match text {
        None => Err(refused(Source::Relation, Rule::TooLong)),
        Some(text) => relation_of(alloc, old, new, text),
    }
}
