// Statements (IEC 61131-3, 3.3.2).
ghost use Rattle.std.specs.Prelude.{◌≡◌, true, false, length, IfOk};
ghost use Rattle.source_tree.specs.SyntaxView as view;
ghost use Rattle.source_tree.specs.Syntax as syntax;
ghost use Rattle.grammar.specs.Reading.{Begins, Gives, ahead};
ghost use Rattle.grammar.specs.Expressions.{expression};
ghost use Rattle.grammar.specs.Statements as spec;

use crate::connection::invoked;
use crate::cursor::{after, expect, opened, refuse, same_mark, token, upper};
use crate::expressions::expression;
use crate::iteration::iteration;
use crate::path::path_from;
use crate::selection::{ends_entries, is_label, labels};
use grammar::{Opener, Stop};
use source_tree::{Arm, Entry, Expr, Iteration, Mark, Name, Stmt, Terminal, Tok};
use std::alloc::{AllocError, Global};

/// The rest of an assignment, from behind the first name of its target.
#[tactic(auto, unfolding(grammar::specs::Statements::assigned))]
fn assigned(
    alloc: Global,
    name: Name,
    toks: &[Tok<'_>],
    end: usize,
    at: usize,
    depth: usize,
) -> Result<(Stmt, usize), Stop>
    ensures { Gives view.stmt_view toks.now result (spec.assigned (length toks.now) (expression (length toks.now) depth) (view.name_view name) (ahead toks.now at)) }
{
    let (target, at) = path_from(alloc, name, toks, end, at)?;
    let at = expect(Mark::Assign, toks, end, at)?;
    let (value, at) = expression(alloc, toks, end, at, depth)?;
    let at = expect(Mark::Semicolon, toks, end, at)?;
    Ok((Stmt::Assign(target, value), at))
}

/// The rest of a statement from behind the name that begins it: a call of a block where a parenthesis follows, or an
/// assignment.
#[tactic(auto, unfolding(grammar::specs::Statements::simple))]
fn simple(
    alloc: Global,
    name: Name,
    toks: &[Tok<'_>],
    end: usize,
    at: usize,
    depth: usize,
) -> Result<(Stmt, usize), Stop>
    ensures { Gives view.stmt_view toks.now result (spec.simple (length toks.now) depth (view.name_view name) (ahead toks.now at)) }
{
    match opened(toks, at) {
        Some((place, at)) => invoked(alloc, name, place, toks, end, at, depth),
        None => assigned(alloc, name, toks, end, at, depth),
    }
}

/// The rest of an EXIT or RETURN, which is such a statement.
#[tactic(auto, unfolding(grammar::specs::Statements::ended))]
fn ended(statement: Stmt, toks: &[Tok<'_>], end: usize, at: usize) -> Result<(Stmt, usize), Stop>
    ensures { Gives view.stmt_view toks.now result (spec.ended (view.stmt_view statement) (ahead toks.now at)) }
{
    let at = expect(Mark::Semicolon, toks, end, at)?;
    Ok((statement, at))
}

/// The statement that a mark begins, which stands before a place, or None where it begins none.
#[cycle(statement)]
#[tactic(auto, unfolding(grammar::specs::Statements::marked))]
fn marked(
    alloc: Global,
    mark: Mark,
    toks: &[Tok<'_>],
    end: usize,
    at: usize,
    depth: usize,
) -> Result<Option<(Stmt, usize)>, Stop>
    ensures { Begins view.stmt_view toks.now result (spec.marked (spec.nested (length toks.now) depth) mark (ahead toks.now at)) }
{
    if same_mark(mark, Mark::Semicolon) {
        Ok(Some((Stmt::Empty, at)))
    } else if same_mark(mark, Mark::If) {
        Ok(Some(nested(alloc, Opener::If, toks, end, at, depth)?))
    } else if same_mark(mark, Mark::Case) {
        Ok(Some(nested(alloc, Opener::Case, toks, end, at, depth)?))
    } else if same_mark(mark, Mark::Return) {
        Ok(Some(ended(Stmt::Return, toks, end, at)?))
    } else {
        Ok(None)
    }
}

/// The statement that the token at a place begins, or None where it begins none. Where labels may follow, a name
/// that is one begins none.
#[cycle(statement)]
#[tactic(auto, unfolding(grammar::specs::Statements::begun))]
fn begun(
    alloc: Global,
    toks: &[Tok<'_>],
    end: usize,
    at: usize,
    depth: usize,
    labelled: bool,
) -> Result<Option<(Stmt, usize)>, Stop>
    ensures { Begins view.stmt_view toks.now result (spec.begun labelled (spec.simple (length toks.now) depth) (spec.nested (length toks.now) depth) (ahead toks.now at)) }
{
    let Some(first) = token(toks, at) else {
        return Ok(None);
    };
    match first.terminal {
        Terminal::Name => {
            if labelled && is_label(toks, at + 1) {
                return Ok(None);
            }
            let name = upper(alloc, first.slice, first.at)?;
            Ok(Some(simple(alloc, name, toks, end, at + 1, depth)?))
        }
        Terminal::For => {
            let opener = Opener::For(first.at);
            Ok(Some(nested(alloc, opener, toks, end, at + 1, depth)?))
        }
        Terminal::Exit => Ok(Some(ended(Stmt::Exit(first.at), toks, end, at + 1)?)),
        Terminal::Mark(mark) => marked(alloc, mark, toks, end, at + 1, depth),
        _ => Ok(None),
    }
}

/// Statements up to a token that begins none, in which parentheses and statements nest no deeper than `depth`.
/// They are `labelled` where they stand directly in an entry of a CASE: there the labels of the next may follow.
#[cycle(statement)]
pub fn statements(
    alloc: Global,
    toks: &[Tok<'_>],
    end: usize,
    mut at: usize,
    depth: usize,
    labelled: bool,
) -> Result<(Vec<Stmt>, usize), Stop>
    ensures { Gives (λ v. view.stmts_view v.items) toks.now result (spec.statements (length toks.now) depth labelled (ahead toks.now at)) }
{
    let mut found = Vec::new(alloc);
    for _turn in 0..toks.len() {
        let Some((next, behind)) = begun(alloc, toks, end, at, depth, labelled)? else {
            return Ok((found, at));
        };
        found.push(next)?;
        at = behind;
    }
    Ok((found, at))
}

/// The conditions and statements behind IF and each ELSIF.
#[cycle(statement)]
fn arms(
    alloc: Global,
    toks: &[Tok<'_>],
    end: usize,
    mut at: usize,
    depth: usize,
) -> Result<(Vec<Arm>, usize), Stop>
    ensures { Gives (λ v. view.arms_view v.items) toks.now result (spec.arms_from (length toks.now) (expression (length toks.now) depth) (spec.statements (length toks.now) depth false) (length toks.now) syntax.no_arms (ahead toks.now at)) }
{
    let mut found = Vec::new(alloc);
    for _turn in 0..toks.len() {
        let (condition, next) = expression(alloc, toks, end, at, depth)?;
        let next = expect(Mark::Then, toks, end, next)?;
        let (body, next) = statements(alloc, toks, end, next, depth, false)?;
        found.push(Arm { condition, body })?;
        let Some(next) = after(Mark::Elsif, toks, next) else {
            return Ok((found, next));
        };
        at = next;
    }
    Err(refuse(toks, end, at))
}

/// What stands behind ELSE, if anything, and the word that closes.
#[cycle(statement)]
#[tactic(auto, unfolding(grammar::specs::Statements::otherwise))]
fn otherwise(
    alloc: Global,
    closing: Mark,
    toks: &[Tok<'_>],
    end: usize,
    at: usize,
    depth: usize,
) -> Result<(Option<Vec<Stmt>>, usize), Stop>
    ensures { Gives view.else_view toks.now result (spec.otherwise (length toks.now) (expression (length toks.now) depth) (spec.statements (length toks.now) depth false) closing (ahead toks.now at)) }
{
    match after(Mark::Else, toks, at) {
        Some(next) => {
            let (body, next) = statements(alloc, toks, end, next, depth, false)?;
            let next = expect(closing, toks, end, next)?;
            Ok((Some(body), next))
        }
        None => {
            let next = expect(closing, toks, end, at)?;
            Ok((None, next))
        }
    }
}

#[tactic(auto, using(grammar::proofs::StatementLists::stmt_branch))]
fn branch(arms: Vec<Arm>, other: Option<Vec<Stmt>>) -> Stmt
    ensures { view.stmt_view result ≡ syntax.branch (view.arms_view arms.items) (view.else_view other) }
{
    Stmt::If(arms, other)
}

/// The rest of an IF.
#[cycle(statement)]
#[tactic(auto, unfolding(grammar::specs::Statements::branched))]
fn conditional(
    alloc: Global,
    toks: &[Tok<'_>],
    end: usize,
    at: usize,
    depth: usize,
) -> Result<(Stmt, usize), Stop>
    ensures { Gives view.stmt_view toks.now result (spec.branched (length toks.now) (expression (length toks.now) depth) (spec.statements (length toks.now) depth false) (ahead toks.now at)) }
{
    let (arms, at) = arms(alloc, toks, end, at, depth)?;
    let (other, at) = otherwise(alloc, Mark::EndIf, toks, end, at, depth)?;
    Ok((branch(arms, other), at))
}

/// The labels and statements of a CASE, up to ELSE or END_CASE.
#[cycle(statement)]
fn entries(
    alloc: Global,
    toks: &[Tok<'_>],
    end: usize,
    mut at: usize,
    depth: usize,
) -> Result<(Vec<Entry>, usize), Stop>
    ensures { Gives (λ v. view.entries_view v.items) toks.now result (spec.entries_from (length toks.now) (expression (length toks.now) depth) (spec.statements (length toks.now) depth) (length toks.now) syntax.no_entries (ahead toks.now at)) }
{
    let mut found = Vec::new(alloc);
    for _turn in 0..toks.len() {
        let (labels, next) = labels(alloc, toks, end, at)?;
        let next = expect(Mark::Colon, toks, end, next)?;
        let (body, next) = statements(alloc, toks, end, next, depth, true)?;
        found.push(Entry { labels, body })?;
        if ends_entries(toks, next) {
            return Ok((found, next));
        }
        at = next;
    }
    Err(refuse(toks, end, at))
}

#[tactic(auto, using(grammar::proofs::StatementLists::stmt_cases))]
fn cases(selector: Expr, entries: Vec<Entry>, other: Option<Vec<Stmt>>) -> Stmt
    ensures { view.stmt_view result ≡ syntax.cases (view.tree_view selector) (view.entries_view entries.items) (view.else_view other) }
{
    Stmt::Case(selector, entries, other)
}

/// The rest of a CASE.
#[cycle(statement)]
#[tactic(auto, unfolding(grammar::specs::Statements::selected))]
fn selection(
    alloc: Global,
    toks: &[Tok<'_>],
    end: usize,
    at: usize,
    depth: usize,
) -> Result<(Stmt, usize), Stop>
    ensures { Gives view.stmt_view toks.now result (spec.selected (length toks.now) (expression (length toks.now) depth) (spec.statements (length toks.now) depth) (ahead toks.now at)) }
{
    let (selector, at) = expression(alloc, toks, end, at, depth)?;
    let at = expect(Mark::Of, toks, end, at)?;
    let (entries, at) = entries(alloc, toks, end, at, depth)?;
    let (other, at) = otherwise(alloc, Mark::EndCase, toks, end, at, depth)?;
    Ok((cases(selector, entries, other), at))
}

#[tactic(auto, using(grammar::proofs::StatementLists::stmt_iterate))]
fn iterate(alloc: Global, iteration: Iteration, body: Vec<Stmt>) -> Result<Stmt, AllocError>
    ensures { IfOk result (λ s. view.stmt_view s ≡ syntax.iterate (view.iteration_view iteration) (view.stmts_view body.items)) }
{
    let iteration = Box::new(alloc, iteration)?;
    Ok(Stmt::For(iteration, body))
}

/// The rest of a FOR, whose place in the text is given.
#[cycle(statement)]
#[tactic(auto, unfolding(grammar::specs::Statements::repeated))]
fn repetition(
    alloc: Global,
    place: usize,
    toks: &[Tok<'_>],
    end: usize,
    at: usize,
    depth: usize,
) -> Result<(Stmt, usize), Stop>
    ensures { Gives view.stmt_view toks.now result (spec.repeated (length toks.now) (expression (length toks.now) depth) (spec.statements (length toks.now) depth false) place (ahead toks.now at)) }
{
    let (iteration, at) = iteration(alloc, place, toks, end, at, depth)?;
    let (body, at) = statements(alloc, toks, end, at, depth, false)?;
    let at = expect(Mark::EndFor, toks, end, at)?;
    Ok((iterate(alloc, iteration, body)?, at))
}

/// The rest of an IF, CASE or FOR.
#[cycle(statement)]
fn nested(
    alloc: Global,
    opener: Opener,
    toks: &[Tok<'_>],
    end: usize,
    at: usize,
    depth: usize,
) -> Result<(Stmt, usize), Stop>
    ensures { Gives view.stmt_view toks.now result (spec.nested (length toks.now) depth opener (ahead toks.now at)) }
{
    if depth == 0 {
        return Err(refuse(toks, end, at));
    }
    match opener {
        Opener::If => conditional(alloc, toks, end, at, depth - 1),
        Opener::Case => selection(alloc, toks, end, at, depth - 1),
        Opener::For(place) => repetition(alloc, place, toks, end, at, depth - 1),
    }
}
