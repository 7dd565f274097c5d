// The door `relation`: what the text of a relation states between two programs.
//
// Its sections are compared word by word with what is printed here:
//   candidates          the names of the candidates, `SAME A, OLD A = 0`; behind `..,` only the last ones
//   candidates refused  the rule that refuses the relation where candidates are counted
//   clauses             a line for each candidate: `SAME A: (OLD.A =:BOOL NEW.A)`
//   parts               a line for each thing that the relation says: `DEPTH 3`, `CONFLICTS 100`, `INPUT A = B 0..1`,
//                       `INPUT OLD A 0..1`, `INPUT NEW B 0..1`, `ENV e`, `FAULTS EQUAL` or `FAULTS FREE`, `RELATE e`, `INVARIANT e`
//   lines               the lines of the text with the places of their parts: `12: FAULTS EQUAL at 19`
//   along               `start:` and a line for each row, `0 1:`, each with the names of the candidates that do not hold there
//   held                the names of the candidates that hold at the start and after each of these rows
ghost use Rattle.std.specs.Prelude.{IfOk};
ghost use Rattle.program_tree.specs.View.{program_view};
ghost use Rattle.scan_model.specs.Pairs.{relation_view, BelongsTo};
ghost use Rattle.scan_replay.specs.Duos.{AreComparable};

use crate::accept::accepted;
use crate::along::compare_run;
use case_files::{
    Case, CaseFault, Mismatch, Section, Word, compare, compare_words, expected_text_of,
    in_one_line, malformed, new_program_of, program_of, refused_at, text_of, without_places,
};
use front_end::tokens_of;
use program_printing::{cell_names, print_candidates, print_clauses, print_lines, print_parts};
use program_tree::Program;
use relation_file::read_relation;
use relation_lines::{Line, parse_lines};
use rules::{Fault, Refusal};
use scan_model::Relation;
use std::alloc::Global;

/// Two programs, and a relation between them.
#[derive(Drop)]
pub(crate) struct Comparison {
    pub old: Program,
    pub new: Program,
    pub relation: Relation,
}

// The texts of the two programs and of the relation.
#[derive(Drop)]
struct Texts {
    old: Vec<u8>,
    new: Vec<u8>,
    relation: Vec<u8>,
}

/// Runs a case of this door.
pub fn run_relation(
    alloc: Global,
    head: &Case,
    case: &Case,
    found: &mut Vec<Mismatch>,
) -> Result<(), CaseFault> {
    let texts = Texts {
        old: without_places(alloc, program_of(alloc, head, case, Word::Old)?)?.bytes,
        new: without_places(alloc, new_program_of(alloc, head, case)?)?.bytes,
        relation: without_places(alloc, text_of(alloc, head, case, Word::Relation)?)?.bytes,
    };
    if let Some(section) = case.section(Word::Candidates) {
        if let Some(rule) = section.argument.as_str().strip_prefix("refused ") {
            return compare_refusal(alloc, &texts, rule.trim(), found);
        }
    }
    let all = compared(alloc, &texts)?;
    for section in &case.sections {
        compare_section(alloc, &texts, &all, section, found)?;
    }
    compare_run(
        alloc,
        &all,
        case.section(Word::Along),
        case.section(Word::Held),
        found,
    )
}

// What a text of a relation leads to between two programs.
fn stated(alloc: Global, text: &[u8], old: &Program, new: &Program) -> Result<Relation, Fault>
    ensures belongs { IfOk result (λ r. BelongsTo (program_view old.now) (program_view new.now) (relation_view r)) }
{
    let tokens = tokens_of(alloc, text)?;
    read_relation(alloc, &tokens, text.len(), old, new)
}

fn refused_relation(alloc: Global, refusal: Refusal, text: &[u8]) -> CaseFault {
    match refused_at(alloc, refusal.rule.name(), refusal.at, text) {
        Ok(refusal) => malformed(alloc, "the relation is refused: ", refusal.as_str()),
        Err(_) => CaseFault::Memory,
    }
}

// The relation that a text states between two programs.
fn related(alloc: Global, text: &[u8], old: &Program, new: &Program) -> Result<Relation, CaseFault>
    ensures belongs { IfOk result (λ r. BelongsTo (program_view old.now) (program_view new.now) (relation_view r)) }
{
    match stated(alloc, text, old, new) {
        Ok(relation) => Ok(relation),
        Err(Fault::Refused(refusal)) => Err(refused_relation(alloc, refusal, text)),
        Err(Fault::Memory) => Err(CaseFault::Memory),
    }
}

// Two programs, and the relation that a text states between them.
fn compared(alloc: Global, texts: &Texts) -> Result<Comparison, CaseFault>
    ensures comparable { IfOk result (λ c. AreComparable c.old c.new c.relation) }
{
    let old = accepted(alloc, &texts.old)?;
    let new = accepted(alloc, &texts.new)?;
    let relation = related(alloc, &texts.relation, &old, &new)?;
    Ok(Comparison { old, new, relation })
}

fn compare_refusal(
    alloc: Global,
    texts: &Texts,
    rule: &str,
    found: &mut Vec<Mismatch>,
) -> Result<(), CaseFault> {
    let old = accepted(alloc, &texts.old)?;
    let new = accepted(alloc, &texts.new)?;
    let expected = refused_at(alloc, rule, 0, &texts.relation)?;
    let got = match stated(alloc, &texts.relation, &old, &new) {
        Ok(relation) => print_candidates(alloc, &relation.candidates)?,
        Err(Fault::Refused(refusal)) => {
            refused_at(alloc, refusal.rule.name(), refusal.at, &texts.relation)?
        }
        Err(Fault::Memory) => return Err(CaseFault::Memory),
    };
    compare(alloc, "candidates", expected.as_str(), got.as_str(), found)?;
    Ok(())
}

fn compare_section(
    alloc: Global,
    texts: &Texts,
    all: &Comparison,
    section: &Section,
    found: &mut Vec<Mismatch>,
) -> Result<(), CaseFault> {
    let names = cell_names(alloc, &all.old, &all.new)?;
    let got = match section.word {
        Word::Candidates => return compare_names(alloc, all, section, found),
        Word::Clauses => print_clauses(alloc, &all.relation.candidates, &names)?,
        Word::Parts => print_parts(alloc, &all.old, &all.new, &all.relation, &names)?,
        Word::Lines => lines_of(alloc, &texts.relation)?,
        _ => return Ok(()),
    };
    let expected = expected_text_of(alloc, section)?;
    compare_words(
        alloc,
        section.word.name(),
        expected.as_str(),
        got.as_str(),
        found,
    )?;
    Ok(())
}

// Behind `..` stands the end of the list of names.
fn compare_names(
    alloc: Global,
    all: &Comparison,
    section: &Section,
    found: &mut Vec<Mismatch>,
) -> Result<(), CaseFault> {
    let got = print_candidates(alloc, &all.relation.candidates)?;
    let expected = expected_text_of(alloc, section)?;
    let expected = in_one_line(alloc, expected.as_str())?;
    if let Some(end) = expected.as_str().strip_prefix("..") {
        if got.as_str().ends_with(end) {
            return Ok(());
        }
    }
    compare(alloc, "candidates", expected.as_str(), got.as_str(), found)?;
    Ok(())
}

// The printed lines of a relation.
fn lines_of(alloc: Global, text: &[u8]) -> Result<String, CaseFault> {
    match read_text(alloc, text) {
        Ok(lines) => Ok(print_lines(alloc, &lines)?),
        Err(Fault::Refused(refusal)) => Err(refused_relation(alloc, refusal, text)),
        Err(Fault::Memory) => Err(CaseFault::Memory),
    }
}

// The lines of a text.
fn read_text(alloc: Global, text: &[u8]) -> Result<Vec<Line>, Fault> {
    let tokens = tokens_of(alloc, text)?;
    parse_lines(alloc, &tokens, text.len())
}
