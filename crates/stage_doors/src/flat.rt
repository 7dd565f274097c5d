// The printed flat list of a text, its nodes and its gates, or its refusal for their number.
use crate::gate_lists::gates_of;
use case_files::{
    Case, CaseFault, Mismatch, Section, Word, compare_words, expected_text_of, malformed,
    program_of, refused_at, without_places,
};
use flat_end::accept_flat;
use node_end::{AcceptFault, accept};
use program_printing::{print_flat, print_nodes};
use rules::Fault;
use std::alloc::Global;

/// Runs a case of this door.
pub fn run_flat(
    alloc: Global,
    head: &Case,
    case: &Case,
    found: &mut Vec<Mismatch>,
) -> Result<(), CaseFault> {
    let text = program_of(alloc, head, case, Word::Flat)?;
    let text = without_places(alloc, text)?.bytes;
    let words = [Word::List, Word::Nodes, Word::Gates];
    if words.iter().all(|word| case.section(*word).is_none()) {
        return Err(malformed(alloc, "the case expects nothing", ""));
    }
    for section in &case.sections {
        match section.word {
            Word::List => compare_list(alloc, &text, section, found)?,
            Word::Nodes => compare_nodes(alloc, &text, section, found)?,
            Word::Gates => compare_gates(alloc, &text, section, found)?,
            _ => {}
        }
    }
    Ok(())
}

fn compare_list(
    alloc: Global,
    text: &[u8],
    section: &Section,
    found: &mut Vec<Mismatch>,
) -> Result<(), CaseFault> {
    let got = match accept_flat(alloc, text) {
        Ok(accepted) => print_flat(alloc, &accepted.flat)?,
        Err(Fault::Refused(refusal)) => {
            refused_at(alloc, refusal.rule.name(), refusal.at, text)?
        }
        Err(Fault::Memory) => return Err(CaseFault::Memory),
    };
    let expected = expected_list(alloc, text, section)?;
    compare_words(alloc, "flat list", expected.as_str(), got.as_str(), found)?;
    Ok(())
}

fn compare_nodes(
    alloc: Global,
    text: &[u8],
    section: &Section,
    found: &mut Vec<Mismatch>,
) -> Result<(), CaseFault> {
    let count = section.argument.as_str().parse::<u64>();
    let got = match accept(alloc, text) {
        Ok(accepted) if count.is_ok() => format!(in alloc; "{}", accepted.scan.nodes.len())?,
        Ok(accepted) => print_nodes(alloc, &accepted.scan)?,
        Err(AcceptFault::Refused(refusal)) => {
            refused_at(alloc, refusal.rule.name(), refusal.at, text)?
        }
        Err(AcceptFault::TooManyNodes) => refused_at(alloc, "M6", 0, text)?,
        Err(AcceptFault::Memory) => return Err(CaseFault::Memory),
    };
    let expected = match count {
        Ok(count) => format!(in alloc; "{count}")?,
        Err(_) => expected_list(alloc, text, section)?,
    };
    compare_words(alloc, "nodes", expected.as_str(), got.as_str(), found)?;
    Ok(())
}

fn compare_gates(
    alloc: Global,
    text: &[u8],
    section: &Section,
    found: &mut Vec<Mismatch>,
) -> Result<(), CaseFault> {
    let got = match accept(alloc, text) {
        Ok(accepted) => gates_of(alloc, &accepted.program, &accepted.scan)?,
        Err(AcceptFault::Refused(_) | AcceptFault::TooManyNodes) => {
            return Err(malformed(alloc, "the program is refused", ""));
        }
        Err(AcceptFault::Memory) => return Err(CaseFault::Memory),
    };
    let expected = expected_text_of(alloc, section)?;
    compare_words(alloc, "gates", expected.as_str(), got.as_str(), found)?;
    Ok(())
}

// What a section expects: its text, or a refusal of the whole program.
fn expected_list(alloc: Global, text: &[u8], section: &Section) -> Result<String, CaseFault> {
    match section.argument.as_str().strip_prefix("refused ") {
        Some(rule) => Ok(refused_at(alloc, rule.trim(), 0, text)?),
        None => expected_text_of(alloc, section),
    }
}
