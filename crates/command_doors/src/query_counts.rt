// How many queries verify and gen have decided.
use crate::files::{TextFile, shelf_of};
use case_files::{Case, CaseFault, Mismatch, Word, compare, malformed};
use cdcl_watch::Watched;
use clause_core::{Cnf, Decided, Decider};
use outside::{MemShelf, MemSink};
use regver_top::{answer_gen, answer_verify};
use std::alloc::{AllocError, Global};

/// Counts what the decider of the program is asked.
#[derive(Drop)]
struct Counting {
    inner: Watched,
    queries: u64,
}

impl Counting {
    fn new() -> Counting {
        Counting {
            inner: Watched::new(),
            queries: 0,
        }
    }
}

impl Decider for Counting {
    fn decide(&mut self, alloc: Global, cnf: &mut Cnf, limit: u32) -> Result<Decided, AllocError> {
        self.queries = self.queries.saturating_add(1);
        self.inner.decide(alloc, cnf, limit)
    }
}

/// Adds a mismatch where verify asks another number of queries than the case says.
pub(crate) fn compare_verify_queries(
    alloc: Global,
    case: &Case,
    files: &[TextFile],
    found: &mut Vec<Mismatch>,
) -> Result<(), AllocError> {
    let Some(section) = case.section(Word::Queries) else {
        return Ok(());
    };
    let mut decider = Counting::new();
    let mut shelf = shelf_of(alloc, files)?;
    let mut out = MemSink::new(alloc, Vec::new(alloc));
    let _status = answer_verify(
        alloc,
        &mut decider,
        "old",
        "new",
        "relation",
        "finding",
        &mut shelf,
        &mut out,
    );
    compare_number(alloc, section.argument.as_str(), decider.queries, found)
}

/// The same of gen.
pub(crate) fn compare_gen_queries(
    alloc: Global,
    case: &Case,
    number: &str,
    found: &mut Vec<Mismatch>,
) -> Result<(), CaseFault> {
    let Some(section) = case.section(Word::Queries) else {
        return Ok(());
    };
    let Ok(count) = number.parse::<u32>() else {
        return Err(malformed(alloc, "this is no number of inputs: ", number));
    };
    let mut decider = Counting::new();
    let mut shelf = MemShelf::new(alloc, Vec::new(alloc));
    let mut out = MemSink::new(alloc, Vec::new(alloc));
    let _status = answer_gen(alloc, &mut decider, count, &mut shelf, &mut out);
    compare_number(alloc, section.argument.as_str(), decider.queries, found)?;
    Ok(())
}

fn compare_number(
    alloc: Global,
    expected: &str,
    queries: u64,
    found: &mut Vec<Mismatch>,
) -> Result<(), AllocError> {
    let got = format!(in alloc; "{queries}")?;
    compare(alloc, "queries", expected, got.as_str(), found)
}
