// A case through its door.
use case_files::{Case, CaseFault, Door, Mismatch, malformed};
use command_doors::{run_check, run_explain, run_gen, run_replay, run_verify, run_words};
use stage_doors::{run_flat, run_formula, run_query, run_scan, run_suggest};
use std::alloc::Global;
use text_doors::{run_accept, run_relation};

/// The door of a case: the one that its sections name, or that of replays where they are among those that several doors have.
pub fn door_of(alloc: Global, case: &Case) -> Result<Door, CaseFault> {
    let mut door = None;
    for section in &case.sections {
        match (section.word.door(), door) {
            (Some(own), Some(other)) if own != other => {
                return Err(malformed(alloc, "the sections are those of two doors", ""));
            }
            (Some(own), _) => door = Some(own),
            (None, _) => {}
        }
    }
    match (door, case.sections.first()) {
        (Some(door), _) => Ok(door),
        (None, Some(_)) => Ok(Door::Replay),
        (None, None) => Err(malformed(alloc, "the case has no section", "")),
    }
}

/// Runs a case, and adds what it finds.
pub fn run_case(
    alloc: Global,
    door: Door,
    head: &Case,
    case: &Case,
    found: &mut Vec<Mismatch>,
) -> Result<(), CaseFault> {
    match door {
        Door::Accept => run_accept(alloc, head, case, found),
        Door::Replay => run_replay(alloc, head, case, found),
        Door::Check => run_check(alloc, head, case, found),
        Door::Explain => run_explain(alloc, head, case, found),
        Door::Verify => run_verify(alloc, head, case, found),
        Door::Flat => run_flat(alloc, head, case, found),
        Door::Scan => run_scan(alloc, head, case, found),
        Door::Relation => run_relation(alloc, head, case, found),
        Door::Query => run_query(alloc, head, case, found),
        Door::Words => run_words(alloc, head, case, found),
        Door::Gen => run_gen(alloc, head, case, found),
        Door::Suggest => run_suggest(alloc, head, case, found),
        Door::Formula => run_formula(alloc, head, case, found),
    }
}
