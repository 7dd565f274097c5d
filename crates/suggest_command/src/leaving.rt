// The scans of a finding that leave candidates.
use finding_lines::{Line, read_line};
use plc_types::Value;
use std::alloc::{AllocError, Global};
use suggestion::Leaving;

// A scan by its numbers: the cells of OLD, those of NEW, and the row; none where there are too few.
fn leaving_of(
    alloc: Global,
    numbers: &[Value],
    old_cells: usize,
    new_cells: usize,
) -> Result<Option<Leaving>, AllocError> {
    let behind = old_cells.saturating_add(new_cells);
    let (Some(old), Some(new), Some(row)) = (
        numbers.get(..old_cells),
        numbers.get(old_cells..behind),
        numbers.get(behind..),
    ) else {
        return Ok(None);
    };
    Ok(Some(Leaving {
        old: Vec::from_slice(alloc, old)?,
        new: Vec::from_slice(alloc, new)?,
        row: Vec::from_slice(alloc, row)?,
    }))
}

// Adds the scan of a DROP line.
fn add_line(
    alloc: Global,
    line: &[u8],
    old_cells: usize,
    new_cells: usize,
    found: &mut Vec<Leaving>,
) -> Result<(), AllocError> {
    if !line.starts_with(b"DROP") {
        return Ok(());
    }
    if let Some(Line::Dropping(numbers)) = read_line(alloc, line)?
        && let Some(leaving) = leaving_of(alloc, numbers.as_slice(), old_cells, new_cells)?
    {
        found.push(leaving)?;
    }
    Ok(())
}

/// The scans of the DROP lines of a finding on programs with so many cells.
pub fn leavings_in(
    alloc: Global,
    finding: &[u8],
    old_cells: usize,
    new_cells: usize,
) -> Result<Vec<Leaving>, AllocError> {
    let mut found = Vec::new(alloc);
    let mut start = 0usize;
    for (place, byte) in finding.iter().enumerate() {
        if *byte == b'\n' {
            if let Some(line) = finding.get(start..place) {
                add_line(alloc, line, old_cells, new_cells, &mut found)?;
            }
            start = place.wrapping_add(1);
        }
    }
    Ok(found)
}
