ghost use Rattle.std.specs.Prelude.{◌≡◌, map, take, IfOk};
ghost use Rattle.clause_core.specs.Satisfaction.{assigned};
ghost use Rattle.node_circuits.specs.NodeWords.{words_view};
ghost use Rattle.pair_circuits.specs.Views.{scan_lits_view};
ghost use Rattle.pair_decoding.specs.Widths.{AreWide, AreWideRows};
ghost use Rattle.query_formulas.specs.Decoded.{decoded_state};

use crate::states::state;
use clause_core::{Assignment, Lit};
use pair_circuits::ScanLits;
use queries::Row;
use query_formulas::CellShape;
use std::alloc::{AllocError, Global};

/// The row that words spell.
pub(crate) fn row(
    alloc: Global,
    cells: &[CellShape],
    words: &[Vec<Lit>],
    found: &Assignment,
) -> Result<Row, AllocError>
    requires { AreWide cells.now (words_view words.now) }
    ensures { IfOk result (λ r. r ≡ decoded_state cells.now (words_view words.now) (assigned found.now)) }
{
    let numbers = state(alloc, cells, words, found)?;
    let mut row = Row::new(alloc);
    for number in numbers.as_slice() {
        row.push(*number)?;
    }
    Ok(row)
}

/// So many of scans, or all where there are fewer.
pub(crate) fn first_scans(scans: &[ScanLits], count: u64) -> &[ScanLits]
    ensures { result.now ≡ take count scans.now }
{
    if count < scans.len() as u64 {
        &scans[..count as usize]
    } else {
        scans
    }
}

/// The rows that the words of scans spell.
pub(crate) fn rows(
    alloc: Global,
    cells: &[CellShape],
    scans: &[ScanLits],
    found: &Assignment,
) -> Result<Vec<Row>, AllocError>
    requires { AreWideRows cells.now (map scan_lits_view scans.now) }
    ensures { IfOk result (λ r. r.items ≡ map (λ s. decoded_state cells.now s.inputs (assigned found.now)) (map scan_lits_view scans.now)) }
{
    let mut rows = Vec::new(alloc);
    for scan in scans {
        rows.push(row(alloc, cells, scan.inputs.as_slice(), found)?)?;
    }
    Ok(rows)
}
