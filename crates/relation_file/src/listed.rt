// The clauses of a relation file as candidates, before, between and behind those that the two programs have by themselves.
ghost use Rattle.std.specs.Prelude.{◌≡◌, ◌+◌, ◌++◌, List, codes, length, IfOk, OnOk};
ghost use Rattle.program_tree.specs.Tree.{Expression};
ghost use Rattle.program_tree.specs.View.{expr_view};
ghost use Rattle.scan_model.specs.Pairs.{candidates_view};
ghost use Rattle.scan_model.specs.Candidates.{numbered, relate_clauses};
ghost use Rattle.candidates.specs.PairView.{old_of, new_of};
ghost use Rattle.relation_lines.specs.Lines.{LineData};
ghost use Rattle.relation_file.specs.Relations.{equal_faults, faults_are_equal, faults_clause, clauses_in};
ghost use Rattle.relation_file.specs.Listed.{on_faults, IsListed};

use candidates::{Pair, add_exclusive_of, add_initial_values_of, add_same_of};
use plc_types::{Elementary, Operator};
use program_tree::{Operand, TypedExpr};
use relation_lines::Condition;
use scan_model::Candidate;
use std::alloc::{AllocError, Global};

/// Candidates in their order, and where the INVARIANT and the RELATE clauses stand among them.
#[derive(Drop)]
pub(crate) struct Listed {
    pub candidates: Vec<Candidate>,
    pub invariants: usize,
    pub first_relate: usize,
    pub relates: usize,
}

// `old.FAULT = new.FAULT`, where NEW's cells stand behind so many of OLD.
fn equal_faults(alloc: Global, old_cells: usize) -> Result<TypedExpr, AllocError>
    ensures { IfOk result (λ e. expr_view e ≡ equal_faults old_cells) }
{
    let mut operands = Vec::new(alloc);
    operands.push(Operand {
        operator: Operator::Equal,
        kind: Elementary::Bool,
        right: TypedExpr::Cell(old_cells),
    })?;
    Ok(TypedExpr::Chain(Box::new(alloc, TypedExpr::Cell(0))?, operands))
}

// `RELATE FAULTS`, where faults have to agree.
fn add_on_faults(
    alloc: Global,
    agree: bool,
    old_cells: usize,
    found: &mut Vec<Candidate>,
) -> Result<(), AllocError>
    ensures { OnOk result (candidates_view found.new.items ≡ candidates_view found.old.items ++ on_faults agree old_cells) }
{
    if agree {
        let name = String::from_str(alloc, "RELATE FAULTS")?;
        let clause = equal_faults(alloc, old_cells)?;
        found.push(Candidate { name, clause })?;
    }
    Ok(())
}

// Adds candidates behind others.
fn add_all(more: Vec<Candidate>, found: &mut Vec<Candidate>) -> Result<(), AllocError>
    ensures { OnOk result (candidates_view found.new.items ≡ candidates_view found.old.items ++ candidates_view more.items) }
{
    let mut left = more;
    found.append(&mut left)?;
    Ok(())
}

// Adds `RELATE n` and `RELATE FAULTS`; says how many they are.
fn add_relates(
    alloc: Global,
    pair: &Pair<'_>,
    agree: bool,
    relates: Vec<Candidate>,
    found: &mut Vec<Candidate>,
) -> Result<usize, AllocError>
    ensures added { (es : List Expression) → candidates_view relates.items ≡ numbered (codes "RELATE ") 1 es
        → OnOk result (candidates_view found.new.items ≡ candidates_view found.old.items ++ relate_clauses agree 1 (es ++ faults_clause agree (length (old_of pair.now).cells))) }
    ensures counted { IfOk result (λ count. count + length found.old.items ≡ length found.new.items) }
{
    let before = found.len();
    add_all(relates, found)?;
    add_on_faults(alloc, agree, pair.old.program.cells.len(), found)?;
    Ok(found.len() - before)
}

/// The candidates of the relation that lines state of which it is known whether faults have to agree, with their INVARIANT and their RELATE
/// clauses.
pub(crate) fn candidates_in(
    alloc: Global,
    pair: &Pair<'_>,
    agree: bool,
    invariants: Vec<Candidate>,
    relates: Vec<Candidate>,
) -> Result<Listed, AllocError>
    ensures { (ls : List LineData) → agree ≡ faults_are_equal ls
        → candidates_view invariants.items ≡ numbered (codes "INVARIANT ") 1 (clauses_in (old_of pair.now) (new_of pair.now) Condition.Invariant ls)
        → candidates_view relates.items ≡ numbered (codes "RELATE ") 1 (clauses_in (old_of pair.now) (new_of pair.now) Condition.Relate ls)
        → IfOk result (IsListed (old_of pair.now) (new_of pair.now) ls) }
{
    let mut candidates = invariants;
    let invariants = candidates.len();
    add_same_of(alloc, pair, &mut candidates)?;
    let first_relate = candidates.len();
    let relates = add_relates(alloc, pair, agree, relates, &mut candidates)?;
    add_initial_values_of(alloc, pair, &mut candidates)?;
    add_exclusive_of(alloc, pair, &mut candidates)?;
    Ok(Listed {
        candidates,
        invariants,
        first_relate,
        relates,
    })
}
