// The door `gen`: what the command gen puts for a word, the status that it ends with, the texts that it saves, and that the finding which
// it saves is judged valid for them.
use crate::answers::expected_of_case;
use crate::failing::compare_failing;
use crate::files::{Run, compare_ended, run_program};
use crate::judged::compare_judged;
use crate::query_counts::compare_gen_queries;
use case_files::{Case, CaseFault, Mismatch, Word, compare_bytes, expected_of, section_of};
use outside::MemShelf;
use std::alloc::{AllocError, Global};

/// The names of the files that are saved.
#[derive(Drop)]
struct Names {
    old: String,
    new: String,
    relation: String,
    finding: String,
}

impl Names {
    fn new(alloc: Global, number: &str) -> Result<Names, AllocError> {
        Ok(Names {
            old: format!(in alloc; "gen{number}.old")?,
            new: format!(in alloc; "gen{number}.new")?,
            relation: format!(in alloc; "gen{number}.rel")?,
            finding: format!(in alloc; "gen{number}.fnd")?,
        })
    }
}

/// Runs a case of this door.
pub fn run_gen<'c>(
    alloc: Global,
    head: &'c Case,
    case: &'c Case,
    found: &mut Vec<Mismatch>,
) -> Result<(), CaseFault> {
    let section = section_of(alloc, head, case, Word::Gen)?;
    let number = section.argument.as_str();
    let expected = expected_of_case(alloc, head, case, Word::Answer, &[])?;
    let names = Names::new(alloc, number)?;
    let saved = [
        names.old.as_str(),
        names.new.as_str(),
        names.relation.as_str(),
        names.finding.as_str(),
    ];
    let words = ["regver", "gen", number];
    let mut shelf = MemShelf::new(alloc, Vec::new(alloc));
    let ended = run_program(alloc, &words, &mut shelf, Vec::new(alloc))?;
    compare_ended(alloc, "status and output", &expected, &ended, found)?;
    compare_text(alloc, case, Word::Old, shelf.bytes(&names.old), found)?;
    compare_text(alloc, case, Word::New, shelf.bytes(&names.new), found)?;
    compare_text(
        alloc,
        case,
        Word::Relation,
        shelf.bytes(&names.relation),
        found,
    )?;
    let verdict = behind_first(&ended.lines);
    compare_judged(alloc, saved, &ended, verdict, &mut shelf, found)?;
    compare_gen_queries(alloc, case, number, found)?;
    let tried = Run {
        words: &words,
        files: &[],
        saved: &saved,
    };
    compare_failing(alloc, case, &tried, found)
}

// The lines behind the first.
fn behind_first(lines: &[u8]) -> &[u8] {
    match lines.iter().position(|byte| *byte == b'\n') {
        Some(end) => lines.get(end.saturating_add(1)..).unwrap_or(&[]),
        None => &[],
    }
}

// Adds a mismatch where the case has the text and another was saved. Behind its last line stands a line break.
fn compare_text(
    alloc: Global,
    case: &Case,
    word: Word,
    saved: &[u8],
    found: &mut Vec<Mismatch>,
) -> Result<(), CaseFault> {
    if let Some(section) = case.section(word) {
        let mut text = expected_of(alloc, section)?;
        text.bytes.push(b'\n')?;
        compare_bytes(alloc, word.name(), &text.bytes, saved, found)?;
    }
    Ok(())
}
