// The lines of a replay as text.
ghost use Rattle.std.specs.Prelude.{◌≡◌, ◌++◌, OnOk, decimal, string_bytes};
ghost use Rattle.program_tree.specs.View.{cells_view, program_view};
ghost use Rattle.replay_command.specs.Lines.{shown_cell, shown, scan_line, ending_line};

use itoa::Buffer;
use plc_types::Value;
use program_tree::{Cell, Part, Program};
use scan_model::Ending;
use std::alloc::AllocError;

fn show_cell(line: &mut String, part: Part, value: Value) -> Result<(), AllocError>
    ensures { OnOk result (string_bytes line.new ≡ string_bytes line.old ++ shown_cell part value) }
{
    match part {
        Part::Input | Part::Local => Ok(()),
        Part::Fault | Part::Output => {
            let mut digits = Buffer::new();
            line.push_str(" ")?;
            line.push_str(digits.format(value))?;
            Ok(())
        }
    }
}

// FAULT, then the outputs as declared.
fn show_cells(line: &mut String, cells: &[Cell], state: &[Value]) -> Result<(), AllocError>
    ensures { OnOk result (string_bytes line.new ≡ string_bytes line.old ++ shown (cells_view cells.now) state.now) }
{
    for (place, cell) in cells.iter().enumerate() {
        if place >= state.len() {
            return Ok(());
        }
        show_cell(line, cell.part, state[place])?;
    }
    Ok(())
}

/// Adds the line of a scan.
pub fn show_scan(
    line: &mut String,
    number: usize,
    old: &Program,
    old_state: &[Value],
    new: &Program,
    new_state: &[Value],
) -> Result<(), AllocError>
    ensures { OnOk result (string_bytes line.new ≡ string_bytes line.old ++ scan_line (program_view old.now) (program_view new.now) number (record { old = old_state.now; new = new_state.now })) }
{
    let mut digits = Buffer::new();
    line.push_str("SCAN ")?;
    line.push_str(digits.format(number))?;
    line.push_str(" OLD")?;
    show_cells(line, &old.cells, old_state)?;
    line.push_str(" NEW")?;
    show_cells(line, &new.cells, new_state)?;
    line.push_str("\n")?;
    Ok(())
}

fn show_number(line: &mut String, front: &str, number: usize, back: &str) -> Result<(), AllocError>
    ensures { OnOk result (string_bytes line.new ≡ string_bytes line.old ++ (front.now ++ decimal number ++ back.now)) }
{
    let mut digits = Buffer::new();
    line.push_str(front)?;
    line.push_str(digits.format(number))?;
    line.push_str(back)?;
    Ok(())
}

/// Adds the line on how a replay ended.
pub fn show_ending(line: &mut String, ending: Ending) -> Result<(), AllocError>
    ensures { OnOk result (string_bytes line.new ≡ string_bytes line.old ++ ending_line ending) }
{
    match ending {
        Ending::Related(scans) => show_number(line, "REPLAY scans ", scans, " related\n"),
        Ending::Unrelated(row) => show_number(line, "REPLAY unrelated at ", row, "\n"),
        Ending::NotAllowed(row) => show_number(line, "REPLAY not allowed at ", row, "\n"),
    }
}
