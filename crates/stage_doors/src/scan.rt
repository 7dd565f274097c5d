// The states behind scans, and how many statements the flat form has.
ghost use Rattle.std.specs.Prelude.{IfOk};
ghost use Rattle.program_tree.specs.View.{program_view};
ghost use Rattle.scan_model.specs.InRange.{IsFitToRun};

use crate::flat_run::{run_all, size_of};
use crate::node_run::node_scan;
use case_files::{
    Case, CaseFault, Mismatch, Section, StatePair, Word, compare, compare_states, find_section,
    malformed, program_of, refused_at, state_pairs, without_places,
};
use flat_core::Flat;
use flat_end::{Accepted, accept_flat};
use node_core::Scan;
use plc_types::Value;
use program_tree::Program;
use rules::Fault;
use scan_replay::Machine;
use scan_ssa::{NodeFault, to_nodes};
use std::alloc::{AllocError, Global};

/// Runs a case of this door.
pub fn run_scan(
    alloc: Global,
    head: &Case,
    case: &Case,
    found: &mut Vec<Mismatch>,
) -> Result<(), CaseFault> {
    let text = program_of(alloc, head, case, Word::Scan)?;
    let text = without_places(alloc, text)?.bytes;
    let accepted = flat_of(alloc, &text)?;
    let nodes = nodes_of(alloc, &accepted.flat)?;
    let statements = find_section(head, case, Word::Statements);
    let pairs = state_pairs(alloc, case)?;
    if pairs.is_empty() && statements.is_none() {
        return Err(malformed(alloc, "the case expects nothing", ""));
    }
    if let Some(section) = statements {
        compare_size(alloc, &accepted.flat, section, found)?;
    }
    run_pairs(alloc, &accepted, &nodes, &pairs, found)
}

fn compare_size(
    alloc: Global,
    flat: &Flat,
    section: &Section,
    found: &mut Vec<Mismatch>,
) -> Result<(), AllocError> {
    let size = size_of(&flat.body);
    let got = format!(in alloc; "{size}")?;
    let expected = section.argument.as_str();
    compare(
        alloc,
        "number of flat statements",
        expected,
        got.as_str(),
        found,
    )
}

// The nodes of a flat form, which have to be few enough.
fn nodes_of(alloc: Global, flat: &Flat) -> Result<Scan, CaseFault> {
    match to_nodes(alloc, flat) {
        Ok(scan) => Ok(scan),
        Err(NodeFault::TooMany) => Err(malformed(alloc, "the program has too many nodes", "")),
        Err(NodeFault::Memory) => Err(CaseFault::Memory),
    }
}

// The program of a text that has to be accepted, with its flat form.
fn flat_of(alloc: Global, text: &[u8]) -> Result<Accepted, CaseFault>
    ensures { IfOk result (λ a. IsFitToRun (program_view a.program)) }
{
    match accept_flat(alloc, text) {
        Ok(accepted) => Ok(accepted),
        Err(Fault::Refused(refusal)) => {
            let refusal = refused_at(alloc, refusal.rule.name(), refusal.at, text)?;
            Err(malformed(alloc, "the program is refused: ", refusal.as_str()))
        }
        Err(Fault::Memory) => Err(CaseFault::Memory),
    }
}

fn run_pairs(
    alloc: Global,
    accepted: &Accepted,
    nodes: &Scan,
    pairs: &[StatePair],
    found: &mut Vec<Mismatch>,
) -> Result<(), CaseFault>
    requires { IsFitToRun (program_view accepted.now.program) }
{
    for pair in pairs {
        run_pair(alloc, accepted, nodes, pair, found)?;
    }
    Ok(())
}

fn run_pair(
    alloc: Global,
    accepted: &Accepted,
    nodes: &Scan,
    pair: &StatePair,
    found: &mut Vec<Mismatch>,
) -> Result<(), CaseFault>
    requires { IsFitToRun (program_view accepted.now.program) }
{
    let (before, after) = (&pair.before, &pair.after);
    let Some(state) = interpreted_scan(alloc, &accepted.program, before)? else {
        let reason = "a state before a scan is none of the program's";
        return Err(malformed(alloc, reason, ""));
    };
    compare_states(alloc, "state behind a scan", after, &state, found)?;
    let store = flat_scan(alloc, &accepted.flat, before)?;
    let cells = store.get(..accepted.program.cells.len()).unwrap_or(&store);
    let what = "state behind a scan of the flat form";
    compare_states(alloc, what, after, cells, found)?;
    let state = node_scan(alloc, nodes, before)?;
    let what = "state behind a scan by its nodes";
    compare_states(alloc, what, after, &state, found)?;
    Ok(())
}

// The state behind a scan of the interpreter, if there can be such a state before it.
fn interpreted_scan(
    alloc: Global,
    program: &Program,
    before: &[Value],
) -> Result<Option<Vec<Value>>, AllocError>
    requires { IsFitToRun (program_view program.now) }
{
    let mut machine = Machine::new(alloc, program)?;
    if !machine.state_fits(before) {
        return Ok(None);
    }
    machine.set_state(before);
    machine.run();
    let mut state = Vec::new(alloc);
    for place in 0..program.cells.len() {
        state.push(machine.value(place))?;
    }
    Ok(Some(state))
}

// The store behind a scan of the flat form, whose scratch cells begin at 0.
fn flat_scan(alloc: Global, flat: &Flat, before: &[Value]) -> Result<Vec<Value>, AllocError> {
    let mut store = Vec::new(alloc);
    for value in before {
        store.push(*value)?;
    }
    for _ in &flat.scratch {
        store.push(0)?;
    }
    run_all(&flat.body, flat, &mut store);
    Ok(store)
}
