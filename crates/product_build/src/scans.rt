ghost use Rattle.std.specs.Prelude.{◌≡◌, ◌++◌, ◌∷◌, [], All, map, IfOk, OnOk};
ghost use Rattle.gates.specs.Clauses.{with_clauses};
ghost use Rattle.pair_circuits.specs.Views.{breaks_view, scan_lits_view};
ghost use Rattle.query_formulas.specs.QueryClauses.{AreInside, units, some_fails, row_units, break_units, walk_units, last_count, last_begun, first_formula, break_formula, walk_formula};
ghost use Rattle.product_build.specs.Counts.{IsRowInside, AreLitsInside, AreScansInOrder};

use clause_core::Cnf;
use pair_circuits::{
    Breaks, ScanLits, add_negative_units, add_some_fails, add_units, gates_formula,
};
use std::alloc::{AllocError, Global};

// Adds the clauses of a row that is allowed.
fn add_row(alloc: Global, formula: &mut Cnf, scan: &ScanLits) -> Result<(), AllocError>
    requires outside { AreInside formula.old.variables scan.now.outside.items }
    requires environment { AreInside formula.old.variables scan.now.environment.items }
    ensures { OnOk result (formula.new ≡ with_clauses formula.old (row_units (scan_lits_view scan.now))) }
{
    add_negative_units(alloc, formula, scan.outside.as_slice())?;
    add_units(formula, scan.environment.as_slice())
}

// Adds those of rows that are allowed.
fn add_rows(alloc: Global, formula: &mut Cnf, scans: &[ScanLits]) -> Result<(), AllocError>
    requires { All (IsRowInside formula.old.variables) (map scan_lits_view scans.now) }
    ensures { OnOk result (formula.new ≡ with_clauses formula.old (walk_units (map scan_lits_view scans.now))) }
{
    for scan in scans {
        add_row(alloc, formula, scan)?;
    }
    Ok(())
}

// Adds those of a scan behind which the pair is related.
fn add_related(alloc: Global, formula: &mut Cnf, scan: &ScanLits) -> Result<(), AllocError>
    requires { AreLitsInside formula.old.variables (scan_lits_view scan.now) }
    ensures { OnOk result (formula.new ≡ with_clauses formula.old (row_units (scan_lits_view scan.now) ++ units scan.now.relates.items)) }
{
    add_row(alloc, formula, scan)?;
    add_units(formula, scan.relates.as_slice())
}

// Adds those of a scan behind which it is not.
fn add_unrelated(alloc: Global, formula: &mut Cnf, scan: &ScanLits) -> Result<(), AllocError>
    requires { AreLitsInside formula.old.variables (scan_lits_view scan.now) }
    ensures { OnOk result (formula.new ≡ with_clauses formula.old (row_units (scan_lits_view scan.now) ++ some_fails scan.now.relates.items ∷ [])) }
{
    add_row(alloc, formula, scan)?;
    add_some_fails(alloc, formula, scan.relates.as_slice())
}

// Adds those of a break of a first scan and others behind it.
fn add_break(
    alloc: Global,
    formula: &mut Cnf,
    first: &ScanLits,
    others: &[ScanLits],
) -> Result<(), AllocError>
    requires first { AreLitsInside formula.old.variables (scan_lits_view first.now) }
    requires others { All (AreLitsInside formula.old.variables) (map scan_lits_view others.now) }
    ensures { OnOk result (formula.new ≡ with_clauses formula.old (break_units (scan_lits_view first.now) (map scan_lits_view others.now))) }
{
    let mut scan = first;
    for next in others {
        add_related(alloc, formula, scan)?;
        scan = next;
    }
    add_unrelated(alloc, formula, scan)
}

// The last of scans.
fn last_of<'s>(first: &'s ScanLits, others: &'s [ScanLits]) -> &'s ScanLits
    ensures begun { result.now.begun ≡ last_begun (scan_lits_view first.now) (map scan_lits_view others.now) }
    ensures ended { result.now.ended ≡ last_count (scan_lits_view first.now) (map scan_lits_view others.now) }
{
    let mut last = first;
    for next in others {
        last = next;
    }
    last
}

/// DEEP's formula for so many of the scans, or for all where there are fewer: that of no clause where that is none.
pub fn break_formula(alloc: Global, breaks: &Breaks, scans: usize) -> Result<Cnf, AllocError>
    requires { AreScansInOrder (breaks_view breaks.now) }
    ensures { IfOk result (λ f. f ≡ break_formula (breaks_view breaks.now) scans) }
{
    let count = scans.min(breaks.scans.len());
    let Some((first, others)) = breaks.scans.as_slice()[..count].split_first() else {
        return Ok(Cnf::new(alloc, 0));
    };
    let mut formula = gates_formula(alloc, &breaks.circuit, last_of(first, others).ended)?;
    add_break(alloc, &mut formula, first, others)?;
    Ok(formula)
}

/// WALK's formula for so many of the scans, or for all where there are fewer: that of no clause where that is none.
pub fn walk_formula(alloc: Global, breaks: &Breaks, rows: usize) -> Result<Cnf, AllocError>
    requires { AreScansInOrder (breaks_view breaks.now) }
    ensures { IfOk result (λ f. f ≡ walk_formula (breaks_view breaks.now) rows) }
{
    let count = rows.min(breaks.scans.len());
    let scans = &breaks.scans.as_slice()[..count];
    let Some((first, others)) = scans.split_first() else {
        return Ok(Cnf::new(alloc, 0));
    };
    let mut formula = gates_formula(alloc, &breaks.circuit, last_of(first, others).begun)?;
    add_rows(alloc, &mut formula, scans)?;
    Ok(formula)
}

/// FIRST's formula: that of no clause where there is no scan.
pub fn first_formula(alloc: Global, breaks: &Breaks) -> Result<Cnf, AllocError>
    requires { AreScansInOrder (breaks_view breaks.now) }
    ensures { IfOk result (λ f. f ≡ first_formula (breaks_view breaks.now)) }
{
    walk_formula(alloc, breaks, 1)
}
