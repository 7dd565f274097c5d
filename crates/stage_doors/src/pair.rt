// The two programs and the relation of a case, with the circuits that its queries are asked of.
ghost use Rattle.std.specs.Prelude.{◌≡◌};
ghost use Rattle.scan_model.specs.Pairs.{relation_view};
ghost use Rattle.comparison_files.specs.Held.{comparison_in};
ghost use Rattle.comparison_files.specs.MadeCircuits.{comparison_of};
ghost use Rattle.comparison_files.specs.Scans.{AreScansOf};

use crate::asked::{Wanted, answer_to};
use case_files::{
    Case, CaseFault, Mismatch, Section, Word, compare, compare_words, expected_text_of, malformed,
    new_program_of, program_of, text_of, without_places,
};
use cdcl_watch::Watched;
use comparison_files::{
    Circuits, CompareFault, Compared, KeptTexts, Scans, StatedTexts, accept_texts, circuits_of,
};
use scan_model::Relation;
use std::alloc::Global;

/// Runs a case of this door.
pub fn run_query(
    alloc: Global,
    head: &Case,
    case: &Case,
    found: &mut Vec<Mismatch>,
) -> Result<(), CaseFault> {
    let texts = KeptTexts {
        old: Some(without_places(alloc, program_of(alloc, head, case, Word::Old)?)?.bytes),
        new: Some(without_places(alloc, new_program_of(alloc, head, case)?)?.bytes),
        relation: Some(without_places(alloc, text_of(alloc, head, case, Word::Relation)?)?.bytes),
    };
    match accept_texts(alloc, &texts) {
        Ok(stated) => {
            let StatedTexts { compared, scans } = stated;
            ask_compared(alloc, &compared, scans, case, found)
        }
        Err(fault) => Err(not_compared(alloc, fault)),
    }
}

fn not_compared(alloc: Global, fault: CompareFault) -> CaseFault {
    match fault {
        CompareFault::Refused(_, refusal) => {
            malformed(alloc, "a text is refused by rule ", refusal.rule.name())
        }
        CompareFault::TooLarge(_, _) => malformed(alloc, "what is compared is too large", ""),
        CompareFault::Memory => CaseFault::Memory,
    }
}

fn ask_compared(
    alloc: Global,
    compared: &Compared,
    scans: Scans,
    case: &Case,
    found: &mut Vec<Mismatch>,
) -> Result<(), CaseFault>
    requires { AreScansOf (comparison_in compared.now) scans }
{
    match circuits_of(alloc, compared, scans) {
        Ok(circuits) => ask_circuits(alloc, &circuits, compared.relation(), case, found),
        Err(fault) => Err(not_compared(alloc, fault)),
    }
}

fn ask_circuits(
    alloc: Global,
    circuits: &Circuits<'_>,
    relation: &Relation,
    case: &Case,
    found: &mut Vec<Mismatch>,
) -> Result<(), CaseFault>
    requires { (comparison_of circuits.now).relation ≡ relation_view relation.now }
{
    let mut decider = Watched::new();
    for section in &case.sections {
        match section.word {
            Word::Query => {
                let words = section.argument.as_str();
                let got = answer_to(
                    alloc,
                    circuits,
                    relation,
                    Wanted::Clauses,
                    &mut decider,
                    words,
                )?;
                let expected = expected_text_of(alloc, section)?;
                compare_words(alloc, words, expected.as_str(), got.as_str(), found)?;
            }
            Word::Satisfiable | Word::Unsatisfiable => {
                ask_list(alloc, circuits, relation, &mut decider, section, found)?;
            }
            _ => {}
        }
    }
    Ok(())
}

// Decides the queries of a section, one a line.
fn ask_list(
    alloc: Global,
    circuits: &Circuits<'_>,
    relation: &Relation,
    decider: &mut Watched,
    section: &Section,
    found: &mut Vec<Mismatch>,
) -> Result<(), CaseFault>
    requires { (comparison_of circuits.now).relation ≡ relation_view relation.now }
{
    let expected = expected_text_of(alloc, section)?;
    for line in expected.as_str().lines() {
        let words = line.trim();
        let got = answer_to(alloc, circuits, relation, Wanted::Decision, decider, words)?;
        compare(alloc, words, section.word.name(), got.as_str(), found)?;
    }
    Ok(())
}
