// What the lines of a relation file state, gathered line by line.
ghost use Rattle.std.specs.Prelude.{◌≡◌, ◌+◌, List, [], ◌∷◌, ◌++◌, ◌||◌, None, decimal, length, option_map, IfOk, OnOk};
ghost use Rattle.std.specs.Option.{option_or};
ghost use Rattle.source_tree.specs.SyntaxView.{tree_view};
ghost use Rattle.program_tree.specs.Tree.{Expression, ProgramData};
ghost use Rattle.program_tree.specs.View.{expr_view, exprs_view};
ghost use Rattle.typing.specs.Programs.{pair_scope};
ghost use Rattle.typing.specs.Typed.{typed};
ghost use Rattle.scan_model.specs.declared.relation.InputLine.{InputLine};
ghost use Rattle.scan_model.specs.Pairs.{candidate_view, candidates_view};
ghost use Rattle.scan_model.specs.Candidates.{numbered};
ghost use Rattle.candidates.specs.ByPath.{found_view};
ghost use Rattle.candidates.specs.Candidates.{before};
ghost use Rattle.candidates.specs.PairView.{old_of, new_of};
ghost use Rattle.relation_lines.specs.Lines.{LineData};
ghost use Rattle.relation_lines.specs.View.{content_view, line_view};
ghost use Rattle.relation_file.specs.Relations.{number_of, asks_equal_faults, both_line, single_line, input_of, clause_of};
ghost use Rattle.relation_file.specs.Gathered.{IsGathered};

use candidates::Pair;
use clause_types::typed_clause;
use program_tree::{Cell, TypedExpr};
use relation_lines::{Condition, Content, Line, Setting};
use scan_model::{Candidate, InputLine, Side};
use source_tree::Expr;
use std::alloc::{AllocError, Global};

// The number of a line of this rank.
fn number_of(wanted: Setting, content: &Content) -> Option<u64>
    ensures { result ≡ number_of wanted (content_view content.now) }
{
    match content {
        Content::Setting(setting, value, _) if *setting == wanted => Some(*value),
        _ => None,
    }
}

// The number that was found, or else that of a line of this rank.
fn first_number(found: Option<u64>, wanted: Setting, content: &Content) -> Option<u64>
    ensures { result ≡ option_or found (number_of wanted (content_view content.now)) }
{
    found.or(number_of(wanted, content))
}

// Whether a line is FAULTS EQUAL.
fn asks_equal_faults(content: &Content) -> bool
    ensures { result ≡ asks_equal_faults (content_view content.now) }
{
    match content {
        Content::Faults(equal, _) => *equal,
        Content::Setting(_, _, _) | Content::Clause(_, _) => false,
        Content::Paired(_, _, _) | Content::Single(_, _, _) => false,
    }
}

// Whether faults have to agree by the lines before, or by this one.
fn must_agree(agreed: bool, content: &Content) -> bool
    ensures { result ≡ (agreed || asks_equal_faults (content_view content.now)) }
{
    agreed || asks_equal_faults(content)
}

// The line of a number that goes into an input of each program.
fn both_line(old: Option<(usize, &Cell)>, new: Option<(usize, &Cell)>) -> Option<InputLine>
    ensures { result ≡ both_line (found_view old.entry) (found_view new.entry) }
{
    let (old, cell) = old?;
    let (new, _) = new?;
    let range = cell.range;
    Some(InputLine::Both { range, old, new })
}

// The line of a number that goes into an input of one program.
fn single_line(side: Side, cell: Option<(usize, &Cell)>) -> Option<InputLine>
    ensures { result ≡ single_line side (found_view cell.entry) }
{
    let (place, cell) = cell?;
    let range = cell.range;
    match side {
        Side::Old => Some(InputLine::Old { range, place }),
        Side::New => Some(InputLine::New { range, place }),
    }
}

// The inputs that a line names.
fn input_of(pair: &Pair<'_>, content: &Content) -> Option<InputLine>
    ensures { result ≡ input_of (old_of pair.now) (new_of pair.now) (content_view content.now) }
{
    match content {
        Content::Paired(old, _, new) => both_line(
            pair.find_old(old.text.as_str()),
            pair.find_new(new.text.as_str()),
        ),
        Content::Single(Side::Old, _, name) => {
            single_line(Side::Old, pair.find_old(name.text.as_str()))
        }
        Content::Single(Side::New, _, name) => {
            single_line(Side::New, pair.find_new(name.text.as_str()))
        }
        Content::Setting(_, _, _) | Content::Faults(_, _) | Content::Clause(_, _) => None,
    }
}

// Adds the inputs of a line, where it names some.
fn add_input(input: Option<InputLine>, found: &mut Vec<InputLine>) -> Result<(), AllocError>
    ensures { OnOk result ((rest : List InputLine) → found.new.items ++ rest ≡ found.old.items ++ before input rest) }
{
    if let Some(input) = input {
        found.push(input)?;
    }
    Ok(())
}

// The typed expression of a clause.
fn typed_in(alloc: Global, pair: &Pair<'_>, clause: &Expr) -> Result<TypedExpr, AllocError>
    ensures { IfOk result (λ e. expr_view e ≡ typed (pair_scope (old_of pair.now) (new_of pair.now)) None (tree_view clause.now)) }
{
    typed_clause(alloc, &pair.scope, clause)
}

// The clause of a line, where it is of this rank.
fn clause_of(
    alloc: Global,
    pair: &Pair<'_>,
    wanted: Condition,
    content: &Content,
) -> Result<Option<TypedExpr>, AllocError>
    ensures { IfOk result (λ clause. option_map expr_view clause ≡ clause_of (old_of pair.now) (new_of pair.now) wanted (content_view content.now)) }
{
    match content {
        Content::Clause(condition, clause) if *condition == wanted => {
            Ok(Some(typed_in(alloc, pair, clause)?))
        }
        _ => Ok(None),
    }
}

// Adds a clause, where there is one.
fn add_clause(clause: Option<TypedExpr>, found: &mut Vec<TypedExpr>) -> Result<(), AllocError>
    ensures { OnOk result ((rest : List Expression) → exprs_view found.new.items ++ rest ≡ exprs_view found.old.items ++ before (option_map expr_view clause) rest) }
{
    if let Some(clause) = clause {
        found.push(clause)?;
    }
    Ok(())
}

// A clause behind its word and number.
fn numbered(
    alloc: Global,
    word: &str,
    number: usize,
    clause: TypedExpr,
) -> Result<Candidate, AllocError>
    ensures { IfOk result (λ c. candidate_view c ≡ record { name = word.now ++ decimal number; clause = expr_view clause }) }
{
    let name = format!(in alloc; "{word}{number}")?;
    Ok(Candidate { name, clause })
}

// Adds a clause, where there is one, behind its word and the number that comes next.
fn add_numbered(
    alloc: Global,
    word: &str,
    clause: Option<TypedExpr>,
    found: &mut Vec<Candidate>,
) -> Result<(), AllocError>
    ensures { OnOk result ((rest : List Expression) → candidates_view found.new.items ++ numbered word.now (length found.new.items + 1) rest
        ≡ candidates_view found.old.items ++ numbered word.now (length found.old.items + 1) (before (option_map expr_view clause) rest)) }
{
    match clause {
        None => Ok(()),
        Some(clause) => {
            let number = found.len() + 1;
            let candidate = numbered(alloc, word, number, clause)?;
            found.push(candidate)?;
            Ok(())
        }
    }
}

/// What the lines so far state: the numbers of DEPTH and CONFLICTS, whether faults have to agree, the inputs, and the typed clauses, of which
/// the INVARIANT and the RELATE clauses are candidates.
#[derive(Drop)]
pub(crate) struct Gathered {
    pub depth: Option<u64>,
    pub conflicts: Option<u64>,
    pub equal_faults: bool,
    pub inputs: Vec<InputLine>,
    pub environment: Vec<TypedExpr>,
    pub invariants: Vec<Candidate>,
    pub relates: Vec<Candidate>,
}

impl Gathered {
    /// Before the first line.
    pub(crate) fn new(alloc: Global) -> Gathered
        ensures { (old new : ProgramData) → IsGathered old new [] result }
    {
        let inputs = Vec::new(alloc);
        let environment = Vec::new(alloc);
        let invariants = Vec::new(alloc);
        let relates = Vec::new(alloc);
        Gathered {
            depth: None,
            conflicts: None,
            equal_faults: false,
            inputs,
            environment,
            invariants,
            relates,
        }
    }

    /// One more line.
    pub(crate) fn note(
        &mut self,
        alloc: Global,
        pair: &Pair<'_>,
        line: &Line,
    ) -> Result<(), AllocError>
        ensures { OnOk result ((ls : List LineData) → IsGathered (old_of pair.now) (new_of pair.now) ls self.old → IsGathered (old_of pair.now) (new_of pair.now) (ls ++ line_view line.now ∷ []) self.new) }
    {
        let depth = first_number(self.depth, Setting::Depth, &line.content);
        let conflicts = first_number(self.conflicts, Setting::Conflicts, &line.content);
        let equal_faults = must_agree(self.equal_faults, &line.content);
        self.depth = depth;
        self.conflicts = conflicts;
        self.equal_faults = equal_faults;
        add_input(input_of(pair, &line.content), &mut self.inputs)?;
        let environment = clause_of(alloc, pair, Condition::Environment, &line.content)?;
        add_clause(environment, &mut self.environment)?;
        let invariant = clause_of(alloc, pair, Condition::Invariant, &line.content)?;
        add_numbered(alloc, "INVARIANT ", invariant, &mut self.invariants)?;
        let relate = clause_of(alloc, pair, Condition::Relate, &line.content)?;
        add_numbered(alloc, "RELATE ", relate, &mut self.relates)?;
        Ok(())
    }
}
