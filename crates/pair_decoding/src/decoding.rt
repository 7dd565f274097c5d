ghost use Rattle.std.specs.Prelude.{◌≡◌, IfOk};
ghost use Rattle.clause_core.specs.Satisfaction.{assigned};
ghost use Rattle.queries.specs.Questions.{query_view};
ghost use Rattle.query_formulas.specs.Decoded.{decoded_view, product_decoded, scans_decoded, decoded};
ghost use Rattle.pair_circuits.specs.Views.{parts_view, product_view, breaks_view};
ghost use Rattle.pair_decoding.specs.Widths.{IsWideProduct, AreWideRows};

use crate::rows::{first_scans, row, rows};
use crate::states::{first_state, state};
use clause_core::Assignment;
use pair_circuits::{Breaks, PairParts, Product};
use queries::{Decoded, Query};
use std::alloc::{AllocError, Global};

// A pair and one row.
fn decode_product(
    alloc: Global,
    parts: &PairParts,
    product: &Product,
    found: &Assignment,
) -> Result<Decoded, AllocError>
    requires { IsWideProduct (parts_view parts.now) (product_view product.now) }
    ensures { IfOk result (λ d. decoded_view d ≡ product_decoded (parts_view parts.now) (product_view product.now) (assigned found.now)) }
{
    let pair = &product.pair;
    let old = state(alloc, parts.old.as_slice(), pair.old.as_slice(), found)?;
    let new = state(alloc, parts.new.as_slice(), pair.new.as_slice(), found)?;
    let inputs = row(
        alloc,
        parts.lines.as_slice(),
        product.inputs.as_slice(),
        found,
    )?;
    let mut rows = Vec::new(alloc);
    rows.push(inputs)?;
    Ok(Decoded { old, new, rows })
}

// The start, and the rows of so many scans.
fn decode_scans(
    alloc: Global,
    parts: &PairParts,
    breaks: &Breaks,
    count: u64,
    found: &Assignment,
) -> Result<Decoded, AllocError>
    requires { AreWideRows parts.now.lines.items (breaks_view breaks.now).scans }
    ensures { IfOk result (λ d. decoded_view d ≡ scans_decoded (parts_view parts.now) (breaks_view breaks.now).scans count (assigned found.now)) }
{
    let old = first_state(alloc, parts.old.as_slice())?;
    let new = first_state(alloc, parts.new.as_slice())?;
    let scans = first_scans(breaks.scans.as_slice(), count);
    let rows = rows(alloc, parts.lines.as_slice(), scans, found)?;
    Ok(Decoded { old, new, rows })
}

/// What a solution of a query's formula stands for: the numbers of its words, which are as wide as the types of their cells.
pub fn decode(
    alloc: Global,
    parts: &PairParts,
    product: &Product,
    breaks: &Breaks,
    query: &Query,
    found: &Assignment,
) -> Result<Decoded, AllocError>
    requires product { IsWideProduct (parts_view parts.now) (product_view product.now) }
    requires breaks { AreWideRows parts.now.lines.items (breaks_view breaks.now).scans }
    ensures { IfOk result (λ d. decoded_view d ≡ decoded (parts_view parts.now) (product_view product.now) (breaks_view breaks.now) (query_view query.now) (assigned found.now)) }
{
    match query {
        Query::First => decode_scans(alloc, parts, breaks, 1, found),
        Query::Step(_) | Query::Goal(_) => decode_product(alloc, parts, product, found),
        Query::Deep(scans) => decode_scans(alloc, parts, breaks, *scans, found),
        Query::Walk(rows) => decode_scans(alloc, parts, breaks, *rows, found),
    }
}
