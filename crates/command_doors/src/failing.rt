// Calls that fail in turn.
use crate::files::{Ended, Run, fill, run_program};
use case_files::{Case, CaseFault, Mismatch, Word, compare, expected_text_of, malformed};
use outside::{Failure, MemShelf, OutsideCall};
use regver_top::Status;
use std::alloc::{AllocError, Global};

/// What a file that may be saved holds before a run in which a call fails.
const BEFORE: &[u8] = b"as before";

/// How many bytes of a call that fails are kept, in three runs.
const KEPT: [usize; 3] = [0, 1, 7];

/// What a run leaves in which no call fails.
#[derive(Drop)]
struct Whole {
    lines: Vec<u8>,
    shelf: MemShelf,
}

/// Has each call fail in turn that a case counts, and adds a mismatch where it is answered otherwise than by its fault, and where the call
/// behind the last of them comes.
pub(crate) fn compare_failing(
    alloc: Global,
    case: &Case,
    tried: &Run<'_>,
    found: &mut Vec<Mismatch>,
) -> Result<(), CaseFault> {
    let Some(section) = case.section(Word::Failing) else {
        return Ok(());
    };
    let text = expected_text_of(alloc, section)?;
    let mut shelf = shelf_before(alloc, tried, Vec::new(alloc))?;
    let lines = run_program(alloc, tried.words, &mut shelf, Vec::new(alloc))?.lines;
    let whole = Whole { lines, shelf };
    for line in text.lines() {
        let (call, count) = calls_of(alloc, line)?;
        compare_calls(alloc, tried, &whole, call, count, found)?;
    }
    Ok(())
}

// The call that a line names, and how many times it is made.
fn calls_of(alloc: Global, line: &str) -> Result<(OutsideCall, u64), CaseFault> {
    let (name, count) = line.split_once(' ').unwrap_or((line, ""));
    let Ok(count) = count.trim().parse::<u64>() else {
        return Err(malformed(alloc, "this is no number of calls: ", line));
    };
    match name {
        "reads" => Ok((OutsideCall::Read, count)),
        "creates" => Ok((OutsideCall::Create, count)),
        "appends" => Ok((OutsideCall::Append, count)),
        "puts" => Ok((OutsideCall::Put, count)),
        _ => Err(malformed(alloc, "there are no such calls: ", line)),
    }
}

// A shelf before the run, some of whose calls fail.
fn shelf_before(
    alloc: Global,
    tried: &Run<'_>,
    failures: Vec<Failure>,
) -> Result<MemShelf, AllocError> {
    let mut shelf = MemShelf::new(alloc, failures);
    fill(&mut shelf, tried.files)?;
    for name in tried.saved {
        shelf.fill(name, BEFORE)?;
    }
    Ok(shelf)
}

fn compare_calls(
    alloc: Global,
    tried: &Run<'_>,
    whole: &Whole,
    call: OutsideCall,
    count: u64,
    found: &mut Vec<Mismatch>,
) -> Result<(), AllocError> {
    for before in 0..count.saturating_add(1) {
        let expected = if before < count {
            "a fault"
        } else {
            "no such call"
        };
        let number = before.saturating_add(1);
        for kept in KEPT {
            let failure = Failure { call, number, kept };
            let got = answer_to(alloc, tried, whole, failure)?;
            if got != expected {
                let what = format!(in alloc; "{call:?} {number} fails, with {kept} bytes kept")?;
                compare(alloc, what.as_str(), expected, got, found)?;
            }
        }
    }
    Ok(())
}

// Runs with one call that fails, and says how that was answered.
fn answer_to(
    alloc: Global,
    tried: &Run<'_>,
    whole: &Whole,
    failure: Failure,
) -> Result<&'static str, AllocError> {
    let mut shelf = shelf_before(alloc, tried, vec![in alloc; failure]?)?;
    let ended = run_program(alloc, tried.words, &mut shelf, vec![in alloc; failure]?)?;
    Ok(if is_fault(tried, whole, failure, &ended, &shelf) {
        "a fault"
    } else if ended.lines.as_slice() == whole.lines.as_slice() {
        "no such call"
    } else {
        "something else"
    })
}

// Whether a call that failed was answered by its fault, and was the last of those that do the same.
fn is_fault(
    tried: &Run<'_>,
    whole: &Whole,
    failure: Failure,
    ended: &Ended,
    shelf: &MemShelf,
) -> bool {
    let counts = shelf.counts();
    match (failure.call, ended.status) {
        (OutsideCall::Read, Status::ReadFault) => {
            counts.reads == failure.number
                && ended.lines.as_slice() == b"READ FAULT\n".as_slice()
                && tried.saved.iter().all(|name| shelf.bytes(name) == BEFORE)
        }
        (OutsideCall::Create, Status::WriteFault) => {
            counts.creates == failure.number && is_cut_off(tried, whole, ended, shelf)
        }
        (OutsideCall::Append, Status::WriteFault) => {
            counts.appends == failure.number && is_cut_off(tried, whole, ended, shelf)
        }
        (OutsideCall::Put, Status::WriteFault) => {
            ended.puts == failure.number
                && whole.lines.starts_with(&ended.lines)
                && has_fronts(tried, whole, shelf)
        }
        _ => false,
    }
}

// Whether a front of the lines was put, and behind it the fault.
fn is_cut_off(tried: &Run<'_>, whole: &Whole, ended: &Ended, shelf: &MemShelf) -> bool {
    match ended.lines.strip_suffix(b"WRITE FAULT\n") {
        Some(front) => whole.lines.starts_with(front) && has_fronts(tried, whole, shelf),
        None => false,
    }
}

// Whether each file that may be saved is as before, or has a front of what it has where no call fails.
fn has_fronts(tried: &Run<'_>, whole: &Whole, shelf: &MemShelf) -> bool {
    tried.saved.iter().all(|name| {
        let bytes = shelf.bytes(name);
        bytes == BEFORE || whole.shelf.bytes(name).starts_with(bytes)
    })
}
