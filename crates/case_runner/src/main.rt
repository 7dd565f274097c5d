// Reads the case files that `index` lists, runs every case, prints where something else comes than a case expects, and counts the cases.
// It ends with status 1 where a case has failed. By the words `bench WAY FILE` it decides a formula, as
// bench/decide.sh measures.
#![tactic(auto)]

mod bench;
mod run;

use bench::run_bench;
use case_files::{Case, CaseFault, CaseFile, Counts, Mismatch, read_case_file};
use run::{door_of, run_case};
use std::alloc::{AllocError, Global};
use std::io::Print;
use std::process::ExitCode;
use std::rt::Files;
use std::{env, fs, io};

fn print_failed(rt: &impl Print, file: &str, title: &str, fault: &str) -> io::Result<()> {
    println!(rt; "FAILED {file}: {title}")?;
    if fault.is_empty() {
        return Ok(());
    }
    println!(rt; "- the case cannot be run: {fault}")
}

fn print_mismatches(rt: &impl Print, list: &[Mismatch]) -> io::Result<()> {
    for mismatch in list {
        let what = mismatch.what.as_str();
        let (expected, got) = (mismatch.expected.as_str(), mismatch.got.as_str());
        println!(rt; "- {what}, expected:\n{expected}\n- got:\n{got}")?;
    }
    Ok(())
}

// Prints the cases of a file that fail, and counts all.
fn run_file(
    rt: &impl Print,
    alloc: Global,
    file: &CaseFile,
    counts: &mut Counts,
) -> io::Result<()> {
    let name = file.name.as_str();
    if !file.head.unreadable.is_empty() {
        counts.add_case(true);
        print_failed(
            rt,
            name,
            file.head.title.as_str(),
            file.head.unreadable.as_str(),
        )?;
    }
    for case in &file.cases {
        let mut found = Vec::new(alloc);
        let fault = run_counted(alloc, &file.head, case, counts, &mut found)?;
        counts.add_case(!fault.is_empty() || !found.is_empty());
        if !fault.is_empty() || !found.is_empty() {
            print_failed(rt, name, case.title.as_str(), fault.as_str())?;
            print_mismatches(rt, &found)?;
        }
    }
    Ok(())
}

// Runs a case that can be read, counts it for its door, and says why it cannot be run, where it cannot.
fn run_counted(
    alloc: Global,
    head: &Case,
    case: &Case,
    counts: &mut Counts,
    found: &mut Vec<Mismatch>,
) -> Result<String, AllocError> {
    if !case.unreadable.is_empty() {
        return case.unreadable.clone();
    }
    let outcome = match door_of(alloc, case) {
        Ok(door) => {
            counts.add_door(door);
            run_case(alloc, door, head, case, found)
        }
        Err(fault) => Err(fault),
    };
    match outcome {
        Ok(()) => Ok(String::new(alloc)),
        Err(CaseFault::Malformed(reason)) => Ok(reason),
        Err(CaseFault::Memory) => String::from_str(alloc, "memory was wanting"),
    }
}

// Runs the files of an index: a name a line.
fn run_all(
    rt: &(impl Files + Print + AllocGlobal),
    alloc: Global,
    index: &str,
) -> io::Result<Counts> {
    let mut counts = Counts::NONE;
    for line in index.lines() {
        let name = line.trim();
        if name.is_empty() || name.starts_with('%') {
            continue;
        }
        match fs::read_to_string(rt, name) {
            Ok(text) => {
                let file = read_case_file(alloc, name, text.as_str())?;
                run_file(rt, alloc, &file, &mut counts)?;
            }
            Err(_) => {
                counts.add_case(true);
                print_failed(rt, name, "the file", "it cannot be read as text")?;
            }
        }
    }
    Ok(counts)
}

fn run_index(rt: &(impl Files + Print + AllocGlobal)) -> io::Result<ExitCode> {
    let index = fs::read_to_string(rt, "index")?;
    let counts = run_all(rt, rt.alloc(), index.as_str())?;
    println!(rt; "{counts}")?;
    Ok(ExitCode::from(if counts.failed > 0 { 1 } else { 0 }))
}

fn main(rt: HostRuntime) -> io::Result<ExitCode> {
    let mut words = env::args(&rt)?;
    let _program = words.next();
    match (words.next(), words.next(), words.next()) {
        (None, _, _) => run_index(&rt),
        (Some(_), Some(what), Some(path)) => {
            run_bench(&rt, what.as_str(), path.as_str(), words.next())?;
            Ok(ExitCode::SUCCESS)
        }
        _ => {
            println!(rt; "usage: case_runner [bench WAY FILE [CLAUSES]]")?;
            Ok(ExitCode::from(2))
        }
    }
}
