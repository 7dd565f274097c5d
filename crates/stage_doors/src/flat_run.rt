// A plain evaluator of flat programs.
use flat_core::{Flat, FlatArm, FlatStmt};
use interpreter::evaluate;
use plc_types::Value;

/// Runs flat statements over a store of the cells and behind them the scratch cells.
#[cycle(run_flat)]
pub fn run_all(list: &[FlatStmt], flat: &Flat, store: &mut [Value]) {
    for stmt in list {
        run(stmt, flat, store);
    }
}

#[cycle(run_flat)]
fn run(stmt: &FlatStmt, flat: &Flat, store: &mut [Value]) {
    match stmt {
        FlatStmt::Set(place, expr) => {
            let given = evaluate(expr, store, &[]);
            add_fault(given.fault, store);
            let taken = takes(flat, *place, given.value);
            if taken && *place < store.len() {
                store[*place] = given.value;
            }
            add_fault(!taken, store);
        }
        FlatStmt::If(arms, rest) => {
            if !run_arms(arms, flat, store) {
                run_all(rest, flat, store);
            }
        }
    }
}

#[cycle(run_flat)]
fn run_arms(arms: &[FlatArm], flat: &Flat, store: &mut [Value]) -> bool {
    for arm in arms {
        run_all(&arm.before, flat, store);
        let given = evaluate(&arm.condition, store, &[]);
        add_fault(given.fault, store);
        if given.value == 1 {
            run_all(&arm.body, flat, store);
            return true;
        }
    }
    false
}

fn add_fault(fault: bool, store: &mut [Value]) {
    if fault && !store.is_empty() {
        store[0] = 1;
    }
}

// A cell takes the values of its range, and so does a scratch cell of a subrange; any other takes each.
fn takes(flat: &Flat, place: usize, value: Value) -> bool {
    let cells = flat.cells.len();
    if place < cells {
        let range = flat.cells[place].range;
        return range.low <= value && value <= range.high;
    }
    match flat.scratch.get(place - cells) {
        Some(scratch) if scratch.is_subrange => {
            scratch.range.low <= value && value <= scratch.range.high
        }
        _ => true,
    }
}

/// How many statements there are, nested ones too.
#[cycle(size_of)]
pub fn size_of(list: &[FlatStmt]) -> u64 {
    let mut size = 0u64;
    for stmt in list {
        size = size.wrapping_add(size_of_one(stmt));
    }
    size
}

#[cycle(size_of)]
fn size_of_one(stmt: &FlatStmt) -> u64 {
    match stmt {
        FlatStmt::Set(_, _) => 1,
        FlatStmt::If(arms, rest) => size_of_arms(arms).wrapping_add(size_of(rest)),
    }
}

#[cycle(size_of)]
fn size_of_arms(arms: &[FlatArm]) -> u64 {
    let mut size = 0u64;
    for arm in arms {
        let own = size_of(&arm.before).wrapping_add(size_of(&arm.body));
        size = size.wrapping_add(own).wrapping_add(1);
    }
    size
}
