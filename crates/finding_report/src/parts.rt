// The parts of a report.
ghost use Rattle.std.specs.Prelude.{◌≡◌, ◌++◌, ◌∷◌, List, codes, IfOk, OnOk, map, take, drop, if◌then◌else◌};
ghost use Rattle.serde_json.specs.Data.{Data, string, object, member, no_members};
ghost use Rattle.serde_json.specs.View.{view};
ghost use Rattle.finding_lines.specs.Numbers.{AreNumbers};
ghost use Rattle.queries.specs.Sets.{members};
ghost use Rattle.finding_report.specs.Reports.{break_of, kept_of, names_among, scans_of, texts};
ghost use Rattle.finding_report.specs.Views.{comparison_in};
ghost use Rattle.scan_model.specs.Pairs.{candidates_view};

use crate::compared::Compared;
use crate::numbers::{cells_value, inputs_value};
use finding_lines::{Conclusion, Numbers};
use queries::CandidateSet;
use scan_model::Candidate;
use serde_json::{Value, json};
use std::alloc::{AllocError, Global};

// The first numbers, at most so many, and those behind them.
fn split(numbers: &[plc_types::Value], count: usize) -> (&[plc_types::Value], &[plc_types::Value])
    requires { AreNumbers numbers.now }
    ensures first { result.0.now ≡ take count numbers.now }
    ensures rest { result.1.now ≡ drop count numbers.now }
    ensures first_numbers { AreNumbers result.0.now }
    ensures other_numbers { AreNumbers result.1.now }
{
    if count <= numbers.len() {
        numbers.split_at(count)
    } else {
        numbers.split_at(numbers.len())
    }
}

// An object of three members.
fn break_object(alloc: Global, inputs: Value, new: Value, old: Value) -> Result<Value, AllocError>
    ensures { IfOk result (λ v. view v ≡ object (member (codes "inputs") (view inputs) (member (codes "new") (view new) (member (codes "old") (view old) no_members)))) }
{
    json!(in alloc; {"inputs": inputs, "new": new, "old": old})
}

// The row that leads out of the relation, and the states that it starts from.
fn pair_value(
    alloc: Global,
    compared: &Compared<'_>,
    numbers: &[plc_types::Value],
) -> Result<Value, AllocError>
    requires { AreNumbers numbers.now }
    ensures { IfOk result (λ v. view v ≡ break_of (comparison_in compared.now) (Some numbers.now)) }
{
    let (old, rest) = split(numbers, compared.old_cells());
    let (new, row) = split(rest, compared.new_cells());
    let inputs = inputs_value(alloc, compared, row)?;
    let new = cells_value(alloc, &compared.new.cells, new)?;
    let old = cells_value(alloc, &compared.old.cells, old)?;
    break_object(alloc, inputs, new, old)
}

/// The break, or `null`.
pub(crate) fn break_value(
    alloc: Global,
    compared: &Compared<'_>,
    pair: &Option<Numbers>,
) -> Result<Value, AllocError>
    ensures { IfOk result (λ v. view v ≡ break_of (comparison_in compared.now) pair.now) }
{
    match pair {
        None => Ok(Value::Null),
        Some(numbers) => pair_value(alloc, compared, numbers.as_slice()),
    }
}

// A candidate's name behind others, where the candidate is in a set.
fn add_name(
    alloc: Global,
    names: &mut Vec<Value>,
    name: &str,
    is_in: bool,
) -> Result<(), AllocError>
    ensures { OnOk result ((rest : List Data) → map view names.new.items ++ rest ≡ map view names.old.items ++ (if is_in then string name.now ∷ rest else rest)) }
{
    if is_in {
        names.push(Value::try_from_str(alloc, name)?)?;
    }
    Ok(())
}

// The names of the candidates of a set.
fn names_value(
    alloc: Global,
    candidates: &[Candidate],
    set: &CandidateSet,
) -> Result<Value, AllocError>
    ensures { IfOk result (λ v. view v ≡ texts (names_among (members set.now) 0 (candidates_view candidates.now))) }
{
    let mut names = Vec::new(alloc);
    for (number, candidate) in candidates.iter().enumerate() {
        add_name(alloc, &mut names, candidate.name.as_str(), set.has(number))?;
    }
    Ok(Value::Array(names))
}

/// The candidates that the verdict rests on.
pub(crate) fn kept_value(
    alloc: Global,
    compared: &Compared<'_>,
    set: &CandidateSet,
    verdict: Conclusion,
) -> Result<Value, AllocError>
    ensures { IfOk result (λ v. view v ≡ kept_of (comparison_in compared.now) (members set.now) verdict) }
{
    match verdict {
        Conclusion::Vacuous | Conclusion::Spent(_, _) => Ok(Value::Array(Vec::new(alloc))),
        _ => names_value(alloc, compared.relation.candidates.as_slice(), set),
    }
}

/// The inputs of each row.
pub(crate) fn scans_value(
    alloc: Global,
    compared: &Compared<'_>,
    rows: &[Numbers],
) -> Result<Value, AllocError>
    ensures { IfOk result (λ v. view v ≡ scans_of (comparison_in compared.now) rows.now) }
{
    let mut scans = Vec::new(alloc);
    for row in rows {
        scans.push(inputs_value(alloc, compared, row.as_slice())?)?;
    }
    Ok(Value::Array(scans))
}
