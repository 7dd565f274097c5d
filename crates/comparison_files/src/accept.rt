// The programs with the nodes of their scans, and the relation, that kept texts state.
ghost use Rattle.std.specs.Prelude.{◌≡◌, true, IfOk, IfErr, List, ℕ};
ghost use Rattle.program_tree.specs.View.{program_view};
ghost use Rattle.rules.specs.declared.rule.Rule.TheVariants.{TooLong};
ghost use Rattle.scan_model.specs.Pairs.{relation_view, BelongsTo};
ghost use Rattle.node_core.specs.Scans.{scan_view};
ghost use Rattle.node_end.specs.NodeTexts.{HasManyNodes};
ghost use Rattle.node_end.specs.FlatTexts.{HasNoFlatForm};
ghost use Rattle.relation_file.specs.Stated.{has_few_candidates};
ghost use Rattle.relation_file.specs.WellFormed.{IsWellFormed};
ghost use Rattle.query_formula_laws.specs.TypedComparisons.{IsScanOf};
ghost use Rattle.product_build.specs.Limits.{HasFewLines};
ghost use Rattle.typed_relations.specs.Readings.{IsReadProgram, IsStated};
ghost use Rattle.command_files.specs.Kept.{IsKept};
ghost use Rattle.command_files.specs.KeptTexts.{AreKept};
ghost use Rattle.command_files.specs.Texts.{Texts};
ghost use Rattle.comparison_files.specs.Accepting.{nodes_of, StatesSmallProgram, StatesSmallRelation, StatesNoSmallRelation, AreStated, IsRefused, IsTooLarge};
ghost use Rattle.comparison_files.specs.Faults.{IfFault, IfFaultOf};
ghost use Rattle.comparison_files.specs.Held.{comparison_in};
ghost use Rattle.comparison_files.specs.Scans.{AreScansOf};

use crate::compared::Compared;
use crate::fault::{CompareFault, program_fault, relation_fault};
use command_answers::Source;
use command_files::{KeptTexts, tokens_of};
use node_core::Scan;
use node_end::{Accepted, accept};
use program_tree::Program;
use relation_file::read_relation;
use rules::{Refusal, Rule};
use scan_model::Relation;
use std::alloc::Global;

/// The nodes of the scans of both programs.
#[derive(Drop)]
pub struct Scans {
    pub old: Scan,
    pub new: Scan,
}

/// What texts state: what is compared, and the nodes of its scans.
#[derive(Drop)]
pub struct StatedTexts {
    pub compared: Compared,
    pub scans: Scans,
}

fn too_long(source: Source) -> CompareFault
    ensures { result ≡ CompareFault.Refused source (record { rule = TooLong; at = 0 }) }
{
    let rule = Rule::TooLong;
    CompareFault::Refused(source, Refusal { rule, at: 0 })
}

// The program that the text of a file states.
fn program_in(
    alloc: Global,
    source: Source,
    text: &Option<Vec<u8>>,
) -> Result<Accepted, CompareFault>
    ensures ok { (bytes : List ℕ) → IsKept text.now bytes → IfOk result (λ a. StatesSmallProgram bytes (program_view a.program)) }
    ensures nodes { IfOk result (λ a. scan_view a.scan ≡ nodes_of (program_view a.program)) }
    ensures read { IfOk result (λ a. IsReadProgram (program_view a.program)) }
    ensures meaning { IfOk result (λ a. IsScanOf (program_view a.program) (scan_view a.scan)) }
    ensures refused { (bytes : List ℕ) → IsKept text.now bytes → IfErr result (IfFaultOf source (HasNoFlatForm bytes) (λ l. (l ≡ Rule.TooManyNodes) × HasManyNodes bytes)) }
{
    let Some(text) = text else {
        return Err(too_long(source));
    };
    match accept(alloc, text) {
        Ok(accepted) => Ok(accepted),
        Err(fault) => Err(program_fault(source, fault)),
    }
}

// The relation between two programs that a text states.
fn relation_of(
    alloc: Global,
    old: &Program,
    new: &Program,
    text: &[u8],
) -> Result<Relation, CompareFault>
    ensures ok { IfOk result (λ r. StatesSmallRelation (program_view old.now) (program_view new.now) text.now (relation_view r)) }
    ensures stated { IfOk result (λ r. IsStated (program_view old.now) (program_view new.now) (relation_view r)) }
    ensures belongs { IfOk result (λ r. BelongsTo (program_view old.now) (program_view new.now) (relation_view r)) }
    ensures well_formed { IfOk result (λ r. IsWellFormed (program_view old.now) (program_view new.now) (relation_view r)) }
    ensures few { IfOk result (λ r. has_few_candidates (relation_view r) ≡ true) }
    ensures lines { IfOk result (λ r. HasFewLines (record { old = program_view old.now; new = program_view new.now; relation = relation_view r })) }
    ensures refused { IfErr result (IfFaultOf Source.Relation (StatesNoSmallRelation (program_view old.now) (program_view new.now) text.now) (λ l. ⊥)) }
{
    let toks = match tokens_of(alloc, text) {
        Ok(toks) => toks,
        Err(fault) => return Err(relation_fault(fault)),
    };
    match read_relation(alloc, &toks, text.len(), old, new) {
        Ok(relation) => Ok(relation),
        Err(fault) => Err(relation_fault(fault)),
    }
}

fn relation_in(
    alloc: Global,
    old: &Program,
    new: &Program,
    text: &Option<Vec<u8>>,
) -> Result<Relation, CompareFault>
    ensures ok { (bytes : List ℕ) → IsKept text.now bytes → IfOk result (λ r. StatesSmallRelation (program_view old.now) (program_view new.now) bytes (relation_view r)) }
    ensures stated { IfOk result (λ r. IsStated (program_view old.now) (program_view new.now) (relation_view r)) }
    ensures belongs { IfOk result (λ r. BelongsTo (program_view old.now) (program_view new.now) (relation_view r)) }
    ensures well_formed { IfOk result (λ r. IsWellFormed (program_view old.now) (program_view new.now) (relation_view r)) }
    ensures few { IfOk result (λ r. has_few_candidates (relation_view r) ≡ true) }
    ensures lines { IfOk result (λ r. HasFewLines (record { old = program_view old.now; new = program_view new.now; relation = relation_view r })) }
    ensures refused { (bytes : List ℕ) → IsKept text.now bytes → IfErr result (IfFaultOf Source.Relation (StatesNoSmallRelation (program_view old.now) (program_view new.now) bytes) (λ l. ⊥)) }
{
    match text {
        None => Err(too_long(Source::Relation)),
        Some(text) => relation_of(alloc, old, new, text),
    }
}

/// What the texts state, or the first rule or limit on a program or the relation that the first of them breaks.
pub fn accept_texts(alloc: Global, texts: &KeptTexts) -> Result<StatedTexts, CompareFault>
    ensures ok { (t : Texts) → AreKept texts.now t → IfOk result (λ m. AreStated t (comparison_in m.compared)) }
    ensures scans { IfOk result (λ m. AreScansOf (comparison_in m.compared) m.scans) }
    ensures refused { (t : Texts) → AreKept texts.now t → IfErr result (IfFault (IsRefused t) (IsTooLarge t)) }
{
    let old = program_in(alloc, Source::Old, &texts.old)?;
    let new = program_in(alloc, Source::New, &texts.new)?;
    let relation = relation_in(alloc, &old.program, &new.program, &texts.relation)?;
    let Accepted {
        program: old_program,
        scan: old_scan,
    } = old;
    let Accepted {
        program: new_program,
        scan: new_scan,
    } = new;
    let compared = Compared {
        old_program,
        new_program,
        relation,
    };
    let scans = Scans {
        old: old_scan,
        new: new_scan,
    };
    Ok(StatedTexts { compared, scans })
}
