// The relation that a file states.
ghost use Rattle.std.specs.Prelude.{◌≡◌, List, [], true, IfOk, IfErr, OnOk};
ghost use Rattle.program_tree.specs.View.{program_view};
ghost use Rattle.scan_model.specs.Pairs.{relation_view, BelongsTo};
ghost use Rattle.relation_lines.specs.Lines.{LineData};
ghost use Rattle.relation_file.specs.Broken.{broken_lines, broken_clauses};
ghost use Rattle.candidates.specs.PairView.{old_of, new_of};
ghost use Rattle.relation_file.specs.Relations.{relation_of};
ghost use Rattle.relation_file.specs.Stated.{IsFirstOf, IsRelation, IsNoRelation, has_few_candidates, IsNoSmallRelation};
ghost use Rattle.relation_file.specs.LinePass.{HasPassed};
ghost use Rattle.relation_file.specs.WellFormed.{IsWellFormed};
ghost use Rattle.rules.specs.Faults.{IfRefused};

use crate::line_pass::{LinePass, pass_over};
use crate::relation::relation_of;
use candidates::Pair;
use program_tree::Program;
use rules::{Fault, Refusal, Rule};
use scan_model::Relation;
use source_tree::Tok;
use std::alloc::Global;

// The relation that the lines of a file of `end` bytes state of which this is kept, or the first rule that they break.
fn relation_in(
    alloc: Global,
    pair: &Pair<'_>,
    end: usize,
    pass: LinePass,
) -> Result<Relation, Fault>
    ensures sound { (ls : List LineData) → HasPassed (old_of pair.now) (new_of pair.now) end ls pass → OnOk result (broken_lines (old_of pair.now) (new_of pair.now) end ls ≡ []) }
    ensures typing { (ls : List LineData) → HasPassed (old_of pair.now) (new_of pair.now) end ls pass → OnOk result (broken_clauses (old_of pair.now) (new_of pair.now) ls ≡ []) }
    ensures stated { (ls : List LineData) → HasPassed (old_of pair.now) (new_of pair.now) end ls pass → IfOk result (λ r. relation_view r ≡ relation_of (old_of pair.now) (new_of pair.now) ls) }
    ensures refused { (ls : List LineData) → HasPassed (old_of pair.now) (new_of pair.now) end ls pass → IfErr result (IfRefused (IsFirstOf (old_of pair.now) (new_of pair.now) end ls)) }
{
    let LinePass { broken, gathered } = pass;
    if let Some(refusal) = broken.first(pair, end) {
        return Err(Fault::Refused(refusal));
    }
    let relation = relation_of(alloc, pair, gathered)?;
    Ok(relation)
}

/// The relation between two programs that the tokens of a relation file state, whose text has a length of `end`
/// bytes, or the first rule that they break: of X1 and G2, of the grammar, of the lines and names, and then of the
/// types of clauses.
pub fn read_lines(
    alloc: Global,
    toks: &[Tok<'_>],
    end: usize,
    old: &Program,
    new: &Program,
) -> Result<Relation, Fault>
    ensures read { IfOk result (λ r. IsRelation (program_view old.now) (program_view new.now) end toks.now (relation_view r)) }
    // The cells that its INPUT lines name are cells of the programs, of the lines' ranges; its candidates are the model's, its numbers lie in their
    // limits, only inputs get numbers, the first cell of each input's path gets one, none gets two, and inputs that get one number are alike.
    ensures belongs { IfOk result (λ r. BelongsTo (program_view old.now) (program_view new.now) (relation_view r)) }
    ensures well_formed { IfOk result (λ r. IsWellFormed (program_view old.now) (program_view new.now) (relation_view r)) }
    ensures refused { IfErr result (IfRefused (IsNoRelation (program_view old.now) (program_view new.now) end toks.now)) }
{
    let pair = Pair::new(alloc, old, new)?;
    let pass = pass_over(alloc, &pair, toks, end)?;
    let relation = relation_in(alloc, &pair, end, pass)?;
    Ok(relation)
}

// Whether a relation has at most 4,096 candidates.
fn has_few_candidates(relation: &Relation) -> bool
    ensures { result ≡ has_few_candidates (relation_view relation.now) }
{
    relation.candidates.len() <= 4_096
}

/// The same, where the relation has at most 4,096 candidates.
///
/// # Errors
///
/// Those of `read_lines`, and then M4.
pub fn read_relation(
    alloc: Global,
    toks: &[Tok<'_>],
    end: usize,
    old: &Program,
    new: &Program,
) -> Result<Relation, Fault>
    ensures read { IfOk result (λ r. IsRelation (program_view old.now) (program_view new.now) end toks.now (relation_view r)) }
    ensures few { IfOk result (λ r. has_few_candidates (relation_view r) ≡ true) }
    ensures belongs { IfOk result (λ r. BelongsTo (program_view old.now) (program_view new.now) (relation_view r)) }
    ensures well_formed { IfOk result (λ r. IsWellFormed (program_view old.now) (program_view new.now) (relation_view r)) }
    ensures refused { IfErr result (IfRefused (IsNoSmallRelation (program_view old.now) (program_view new.now) end toks.now)) }
{
    let relation = read_lines(alloc, toks, end, old, new)?;
    if !has_few_candidates(&relation) {
        let rule = Rule::TooManyCandidates;
        return Err(Fault::Refused(Refusal { rule, at: 0 }));
    }
    Ok(relation)
}
