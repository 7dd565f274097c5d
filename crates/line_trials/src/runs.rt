// Runs.
ghost use Rattle.scan_replay.specs.Duos.{AreComparable};

use crate::plan::Plan;
use crate::random::Random;
use crate::reached::Reached;
use crate::rows::{Habit, draw_habits, draw_row};
use plc_types::Value;
use program_tree::Program;
use scan_model::{Relation, Side};
use scan_replay::Duo;
use seen_values::Seen;
use std::alloc::{AllocError, Global};

// How often a row is drawn until one is allowed.
const MOST_TRIES: usize = 20;

/// The rows of each run that was tried; and where a scan left the pair unrelated, the number of that scan in the last
/// run, from 1, with which all ended.
#[derive(Drop)]
pub struct Tried {
    pub runs: Vec<Vec<Vec<Value>>>,
    pub unrelated: Option<usize>,
}

// How a scan went.
enum Scan {
    NoRow,
    Related,
    Unrelated,
}

// What is drawn from: the relation, the numbers of the texts, and how the inputs come.
#[derive(Clone, Copy)]
struct Source<'a> {
    alloc: Global,
    relation: &'a Relation,
    numbers: &'a [Value],
    habits: &'a [Habit],
}

// A row that is allowed, where one is found.
fn allowed_row(
    source: &Source<'_>,
    duo: &mut Duo<'_>,
    random: &mut Random,
    last: &[Value],
) -> Result<Option<Vec<Value>>, AllocError> {
    for _ in 0..MOST_TRIES {
        let row = draw_row(
            source.alloc,
            random,
            source.relation.inputs.as_slice(),
            source.numbers,
            source.habits,
            last,
        )?;
        if duo.allowed(row.as_slice()) {
            return Ok(Some(row));
        }
    }
    Ok(None)
}

// The last row of a run.
fn last_of(run: &[Vec<Value>]) -> &[Value] {
    match run.last() {
        Some(row) => row.as_slice(),
        None => &[],
    }
}

// Runs one scan on a row that is allowed, and keeps the row.
fn run_scan(
    source: &Source<'_>,
    duo: &mut Duo<'_>,
    random: &mut Random,
    run: &mut Vec<Vec<Value>>,
) -> Result<Scan, AllocError> {
    let Some(row) = allowed_row(source, duo, random, last_of(run.as_slice()))? else {
        return Ok(Scan::NoRow);
    };
    if !duo.allowed(row.as_slice()) {
        return Ok(Scan::NoRow);
    }
    duo.step(row.as_slice());
    run.push(row)?;
    if duo.related() {
        Ok(Scan::Related)
    } else {
        Ok(Scan::Unrelated)
    }
}

// So many first rows of an earlier run, by its number.
fn rows_of(runs: &[Vec<Vec<Value>>], from: (usize, usize)) -> Option<&[Vec<Value>]> {
    let (number, count) = from;
    runs.get(number)?.get(..count)
}

fn see(duo: &Duo<'_>, seen: &mut Seen) -> Result<(), AllocError> {
    seen.add(duo.state(Side::Old), duo.state(Side::New))
}

// Runs the first rows of an earlier run again. Nothing is seen of them a second time.
fn repeat(
    duo: &mut Duo<'_>,
    rows: &[Vec<Value>],
    alloc: Global,
    run: &mut Vec<Vec<Value>>,
) -> Result<(), AllocError> {
    for row in rows {
        if !duo.allowed(row.as_slice()) {
            return Ok(());
        }
        duo.step(row.as_slice());
        run.push(Vec::from_slice(alloc, row.as_slice())?)?;
    }
    Ok(())
}

// One run, until as many pairs are seen as are wanted. Answers whether all its pairs are related.
fn try_run(
    source: &Source<'_>,
    scans: usize,
    most: usize,
    duo: &mut Duo<'_>,
    random: &mut Random,
    seen: &mut Seen,
    reached: &mut Reached,
    run: &mut Vec<Vec<Value>>,
) -> Result<bool, AllocError> {
    for _ in 0..scans {
        if seen.rows() >= most {
            break;
        }
        match run_scan(source, duo, random, run)? {
            Scan::NoRow => return Ok(true),
            Scan::Related => {
                see(duo, seen)?;
                reached.note(seen.row(seen.rows().wrapping_sub(1)), run.len())?;
            }
            Scan::Unrelated => return Ok(false),
        }
    }
    Ok(true)
}

// With which chance in hundredths an input changes.
fn hundredths_of(random: &mut Random) -> u64 {
    match random.below(4) {
        0 => 2,
        1 => 10,
        2 => 40,
        _ => 100,
    }
}

// How the inputs come in the next run: each second time, where it goes on from another, as they came there, since that led further.
fn next_habits(
    alloc: Global,
    random: &mut Random,
    relation: &Relation,
    numbers: &[Value],
    kept: &[Vec<Habit>],
    from: (usize, usize),
) -> Result<Vec<Habit>, AllocError> {
    let (number, count) = from;
    if count > 0
        && random.below(2) == 0
        && let Some(habits) = kept.get(number)
    {
        return Vec::from_slice(alloc, habits.as_slice());
    }
    let hundredths = hundredths_of(random);
    draw_habits(
        alloc,
        random,
        relation.inputs.as_slice(),
        numbers,
        hundredths,
    )
}

/// Runs both programs as planned, and keeps the pairs that were seen: the start, and each pair behind a scan, as long as they are
/// related. Every second run goes on from where an earlier one reached a value that a cell had not had before.
pub fn try_runs(
    alloc: Global,
    old: &Program,
    new: &Program,
    relation: &Relation,
    numbers: &[Value],
    plan: &Plan,
    seen: &mut Seen,
) -> Result<Tried, AllocError>
    requires { AreComparable old.now new.now relation.now }
{
    let mut duo = Duo::new(alloc, old, new, relation)?;
    let mut random = Random::new(plan.seed);
    let mut runs: Vec<Vec<Vec<Value>>> = Vec::new(alloc);
    let mut kept: Vec<Vec<Habit>> = Vec::new(alloc);
    let mut reached = Reached::new(alloc);
    see(&duo, seen)?;
    reached.note(seen.row(0), 0)?;
    for number in 0..plan.runs {
        let from = reached.choose(&mut random);
        let habits = next_habits(alloc, &mut random, relation, numbers, kept.as_slice(), from)?;
        let source = Source {
            alloc,
            relation,
            numbers,
            habits: habits.as_slice(),
        };
        let mut run = Vec::new(alloc);
        duo.reset();
        if let Some(rows) = rows_of(runs.as_slice(), from) {
            repeat(&mut duo, rows, alloc, &mut run)?;
        }
        reached.begin(number);
        let scans = plan.scans(number);
        let stays = try_run(
            &source,
            scans,
            plan.pairs,
            &mut duo,
            &mut random,
            seen,
            &mut reached,
            &mut run,
        )?;
        let scan = run.len();
        runs.push(run)?;
        kept.push(habits)?;
        if !stays {
            let unrelated = Some(scan);
            return Ok(Tried { runs, unrelated });
        }
        if seen.rows() >= plan.pairs {
            break;
        }
    }
    let unrelated = None;
    Ok(Tried { runs, unrelated })
}
