// The relation that a text states.
ghost use Rattle.std.specs.Prelude.{◌≡◌, IfOk, IfErr};
ghost use Rattle.program_tree.specs.View.{program_view};
ghost use Rattle.rules.specs.Faults.{IfRefused};
ghost use Rattle.scan_model.specs.InRange.{IsFitToRun};
ghost use Rattle.scan_model.specs.Pairs.{relation_view};
ghost use Rattle.scan_replay.specs.Duos.{AreComparable};
ghost use Rattle.command_files.specs.Stating.{StatesRelation, StatesNoRelation};

use command_files::tokens_of;
use program_tree::Program;
use relation_file::{read_lines, read_relation};
use rules::Fault;
use scan_model::Relation;
use std::alloc::Global;

/// The relation of the text that was given.
pub fn read_given(
    alloc: Global,
    old: &Program,
    new: &Program,
    text: &[u8],
) -> Result<Relation, Fault>
    requires old { IsFitToRun (program_view old.now) }
    requires new { IsFitToRun (program_view new.now) }
    ensures stated { IfOk result (λ r. StatesRelation (program_view old.now) (program_view new.now) text.now (relation_view r)) }
    ensures comparable { IfOk result (λ r. AreComparable old.now new.now r) }
    ensures refused { IfErr result (IfRefused (StatesNoRelation (program_view old.now) (program_view new.now) text.now)) }
{
    let toks = tokens_of(alloc, text)?;
    let relation = read_lines(alloc, &toks, text.len(), old, new)?;
    Ok(relation)
}

/// The relation of a text with lines, where it has at most 4,096 candidates.
pub fn read_back(
    alloc: Global,
    old: &Program,
    new: &Program,
    text: &[u8],
) -> Result<Relation, Fault>
    requires old { IsFitToRun (program_view old.now) }
    requires new { IsFitToRun (program_view new.now) }
    ensures stated { IfOk result (λ r. StatesRelation (program_view old.now) (program_view new.now) text.now (relation_view r)) }
    ensures comparable { IfOk result (λ r. AreComparable old.now new.now r) }
{
    let toks = tokens_of(alloc, text)?;
    let relation = read_relation(alloc, &toks, text.len(), old, new)?;
    Ok(relation)
}
