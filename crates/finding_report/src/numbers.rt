// Numbers at their names.
ghost use Rattle.std.specs.Prelude.{◌≡◌, map, IfOk, OnOk};
ghost use Rattle.serde_json.specs.Data.{number, put};
ghost use Rattle.serde_json.specs.Find.{of_integer};
ghost use Rattle.serde_json.specs.View.{view, members_view};
ghost use Rattle.finding_lines.specs.Numbers.{IsNumber, AreNumbers};
ghost use Rattle.program_tree.specs.View.{cells_view};
ghost use Rattle.scan_model.specs.Candidates.{paths_of};
ghost use Rattle.finding_report.specs.Names.{input_name};
ghost use Rattle.finding_report.specs.Reports.{numbers_at, inputs_of};
ghost use Rattle.finding_report.specs.Views.{comparison_in};

use crate::compared::Compared;
use crate::names::input_name;
use program_tree::Cell;
use scan_model::InputLine;
use serde_json::{Map, Value};
use std::alloc::{AllocError, Global};

// A number at a name.
fn add_number(
    alloc: Global,
    members: &mut Map<String, Value>,
    name: &str,
    value: plc_types::Value,
) -> Result<(), AllocError>
    requires { IsNumber value }
    ensures { OnOk result (members_view members.new.entries ≡ put name.now (number (of_integer value)) (members_view members.old.entries)) }
{
    let number = if value < 0 {
        Value::from(value as i64)
    } else {
        Value::from(value as u64)
    };
    serde_json::put(members, alloc, name, number)
}

/// The values of cells.
pub(crate) fn cells_value(
    alloc: Global,
    cells: &[Cell],
    values: &[plc_types::Value],
) -> Result<Value, AllocError>
    requires { AreNumbers values.now }
    ensures { IfOk result (λ v. view v ≡ numbers_at (paths_of (cells_view cells.now)) values.now) }
{
    let mut members = Map::new(alloc);
    for place in 0..cells.len().min(values.len()) {
        add_number(
            alloc,
            &mut members,
            cells[place].path.as_str(),
            values[place],
        )?;
    }
    Ok(Value::Object(members))
}

// A row of inputs by their names.
fn row_value(
    alloc: Global,
    old: &[Cell],
    new: &[Cell],
    inputs: &[InputLine],
    row: &[plc_types::Value],
) -> Result<Value, AllocError>
    requires { AreNumbers row.now }
    ensures { IfOk result (λ v. view v ≡ numbers_at (map (input_name (cells_view old.now) (cells_view new.now)) inputs.now) row.now) }
{
    let mut members = Map::new(alloc);
    for place in 0..inputs.len().min(row.len()) {
        let name = input_name(alloc, old, new, inputs[place])?;
        add_number(alloc, &mut members, name.as_str(), row[place])?;
    }
    Ok(Value::Object(members))
}

/// The inputs of a row.
pub(crate) fn inputs_value(
    alloc: Global,
    compared: &Compared<'_>,
    row: &[plc_types::Value],
) -> Result<Value, AllocError>
    requires { AreNumbers row.now }
    ensures { IfOk result (λ v. view v ≡ inputs_of (comparison_in compared.now) row.now) }
{
    row_value(
        alloc,
        &compared.old.cells,
        &compared.new.cells,
        &compared.relation.inputs,
        row,
    )
}
