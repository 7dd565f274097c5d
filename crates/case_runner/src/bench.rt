// What bench/decide.sh measures: the first word says which decider decides the formula of the file that the second names, `decide` the fast
// one and `plain` the plain one, by at most so many derived clauses as a third word says. The time and the answer are printed.
use clause_core::{Cnf, Decided};
use stage_doors::{Way, decide, read_formula, right_entries};
use std::time::Instant;
use std::{fs, io};

/// How many clauses may be derived where no word says it.
const MOST_CLAUSES: u32 = 1_000_000;

/// Does with the file what the words ask for.
pub fn run_bench(
    rt: &HostRuntime,
    what: &str,
    path: &str,
    limit: Option<String>,
) -> io::Result<()> {
    let limit = match limit {
        None => MOST_CLAUSES,
        Some(word) => word.as_str().parse::<u32>().unwrap_or(MOST_CLAUSES),
    };
    match what {
        "decide" => run_deciding(rt, path, Way::Fast, limit),
        "plain" => run_deciding(rt, path, Way::Plain, limit),
        _ => println!(rt; "usage: case_runner bench decide|plain FILE [CLAUSES]"),
    }
}

fn run_deciding(rt: &HostRuntime, path: &str, way: Way, limit: u32) -> io::Result<()> {
    let text = fs::read_to_string(rt, path)?;
    let mut cnf = read_formula(rt.alloc(), text.as_str())?;
    let start = Instant::now(rt)?;
    let answer = decide(rt.alloc(), way, &mut cnf, limit)?;
    let milliseconds = start.elapsed(rt)?.as_millis();
    let Some(answer) = answer else {
        return println!(rt; "c too large");
    };
    let refused = answer.refused;
    println!(rt; "c {milliseconds} ms\nc refused proposals {refused}")?;
    print_decided(rt, cnf, &answer.decided)
}

// Prints the answer. Where the clauses are used up it judges the log, and prints how many of its entries are right.
fn print_decided(rt: &HostRuntime, cnf: Cnf, decided: &Decided) -> io::Result<()> {
    match decided {
        Decided::Found(_) => println!(rt; "s SATISFIABLE"),
        Decided::Refuted(log) => println!(rt; "s UNSATISFIABLE\nc entries {}", log.entries().len()),
        Decided::Spent(log) => {
            println!(rt; "s UNKNOWN\nc entries {}", log.entries().len())?;
            let start = Instant::now(rt)?;
            let count = right_entries(rt.alloc(), cnf, log)?;
            let milliseconds = start.elapsed(rt)?.as_millis();
            println!(rt; "c right entries {count}\nc judged in {milliseconds} milliseconds")
        }
    }
}
