// Expressions, by descent through the levels of operators.
ghost use Rattle.std.specs.Prelude.{◌≡◌, ◌<◌, ◌≤◌, ◌-◌, length, is_some, IfOk};
ghost use Rattle.source_tree.specs.SyntaxView as view;
ghost use Rattle.source_tree.specs.SyntaxView.{tree_view};
ghost use Rattle.source_tree.specs.Syntax as syntax;
ghost use Rattle.grammar.specs.Expressions as spec;
ghost use Rattle.grammar.specs.Reading as reading;
ghost use Rattle.grammar.specs.Reading.{Gives, ahead};

use crate::call::{arguments, call};
use crate::cursor::{after, expect, named, opened, operator_of, refuse, sign, token, upper};
use crate::literal::constant;
use crate::path::path_from;
use grammar::Stop;
use source_tree::{Expr, Link, Mark, Name, Terminal, Tok};
use std::alloc::{AllocError, Global};

/// The level of the loosest operators.
const LOOSEST: u8 = 7;

/// The rest of an expression that begins with a name and not with `type#`: of a call, or of a path.
#[cycle(expression)]
#[tactic(auto, unfolding(grammar::specs::Expressions::called))]
fn called(
    alloc: Global,
    name: Name,
    toks: &[Tok<'_>],
    end: usize,
    at: usize,
    depth: usize,
) -> Result<(Expr, usize), Stop>
    ensures { Gives tree_view toks.now result (spec.called (length toks.now) (spec.inside (length toks.now) depth) (view.name_view name) (ahead toks.now at)) }
{
    match opened(toks, at) {
        Some((place, next)) => {
            let (found, next) = arguments(alloc, toks, end, next, depth)?;
            Ok((call(name, place, found), next))
        }
        None => {
            let (path, at) = path_from(alloc, name, toks, end, at)?;
            Ok((Expr::Path(path), at))
        }
    }
}

/// The rest of an expression that begins with a name: of `type#value`, of a call, or of a path.
#[cycle(expression)]
#[tactic(auto, unfolding(grammar::specs::Expressions::referred))]
fn referred(
    alloc: Global,
    name: Name,
    toks: &[Tok<'_>],
    end: usize,
    at: usize,
    depth: usize,
) -> Result<(Expr, usize), Stop>
    ensures { Gives tree_view toks.now result (spec.referred (length toks.now) (spec.inside (length toks.now) depth) (view.name_view name) (ahead toks.now at)) }
{
    match after(Mark::Hash, toks, at) {
        Some(at) => {
            let (value, at) = named(alloc, toks, end, at)?;
            Ok((Expr::Enumerator(name, value), at))
        }
        None => called(alloc, name, toks, end, at, depth),
    }
}

/// A literal, a variable, `type#value`, a call, or an expression in parentheses.
#[cycle(expression)]
#[tactic(auto, unfolding(grammar::specs::Expressions::primary, grammar::specs::Expressions::constant))]
fn primary(
    alloc: Global,
    toks: &[Tok<'_>],
    end: usize,
    at: usize,
    depth: usize,
) -> Result<(Expr, usize), Stop>
    ensures { Gives tree_view toks.now result (spec.primary (length toks.now) (spec.inside (length toks.now) depth) (ahead toks.now at)) }
{
    let Some(first) = token(toks, at) else {
        return Err(refuse(toks, end, at));
    };
    match first.terminal {
        Terminal::Name => {
            let name = upper(alloc, first.slice, first.at)?;
            referred(alloc, name, toks, end, at + 1, depth)
        }
        Terminal::Open => {
            let (value, next) = inside(alloc, toks, end, at + 1, depth)?;
            let next = expect(Mark::Close, toks, end, next)?;
            Ok((Expr::Paren(first.at, Box::new(alloc, value)?), next))
        }
        Terminal::Number(_) | Terminal::Truth(_) | Terminal::Type(_) => {
            let (found, next) = constant(toks, end, at)?;
            Ok((Expr::Literal(found), next))
        }
        _ => Err(refuse(toks, end, at)),
    }
}

/// A primary, or a unary operator and a primary.
#[cycle(expression)]
#[tactic(auto, unfolding(grammar::specs::Expressions::signed))]
fn signed(
    alloc: Global,
    toks: &[Tok<'_>],
    end: usize,
    at: usize,
    depth: usize,
) -> Result<(Expr, usize), Stop>
    ensures { Gives tree_view toks.now result (spec.signed (length toks.now) (spec.inside (length toks.now) depth) (ahead toks.now at)) }
{
    match sign(toks, at) {
        Some(((operator, place), next)) => {
            let (value, next) = primary(alloc, toks, end, next, depth)?;
            Ok((Expr::Unary(operator, place, Box::new(alloc, value)?), next))
        }
        None => primary(alloc, toks, end, at, depth),
    }
}

/// An operand with what is linked to it: itself where that is nothing.
fn joined(alloc: Global, first: Expr, links: Vec<Link>) -> Result<Expr, AllocError>
    ensures { IfOk result (λ e. tree_view e ≡ spec.joined (tree_view first) (view.links_view links.items)) }
{
    if links.is_empty() {
        return Ok(first);
    }
    Ok(Expr::Chain(Box::new(alloc, first)?, links))
}

/// Whether an operator of a level stands at a place.
fn is_linked(toks: &[Tok<'_>], at: usize, level: u8) -> bool
    ensures { result ≡ is_some (reading.operator_of level (ahead toks.now at)) }
{
    operator_of(level, toks, at).is_some()
}

/// The operators of a level and their right operands, which are tighter.
#[cycle(expression)]
fn links(
    alloc: Global,
    toks: &[Tok<'_>],
    end: usize,
    mut at: usize,
    depth: usize,
    level: u8,
) -> Result<(Vec<Link>, usize), Stop>
    requires some { 0 < level }
    requires loosest { level ≤ LOOSEST }
    ensures { Gives (λ v. view.links_view v.items) toks.now result (spec.links (spec.levelled (length toks.now) (spec.inside (length toks.now) depth) (level - 1)) level (length toks.now) syntax.no_links (ahead toks.now at)) }
{
    let mut links = Vec::new(alloc);
    for _turn in 0..toks.len() {
        let Some(((operator, place), next)) = operator_of(level, toks, at) else {
            return Ok((links, at));
        };
        let (right, next) = levelled(alloc, toks, end, next, depth, level - 1)?;
        links.push(Link {
            operator,
            at: place,
            right,
        })?;
        at = next;
    }
    Ok((links, at))
}

/// An expression whose operators are of a level or tighter: an operand with what is linked to it level by level, the tightest
/// first.
#[cycle(expression)]
fn levelled(
    alloc: Global,
    toks: &[Tok<'_>],
    end: usize,
    at: usize,
    depth: usize,
    level: u8,
) -> Result<(Expr, usize), Stop>
    requires { level ≤ LOOSEST }
    ensures { Gives tree_view toks.now result (spec.levelled (length toks.now) (spec.inside (length toks.now) depth) level (ahead toks.now at)) }
{
    let (mut value, mut at) = signed(alloc, toks, end, at, depth)?;
    for tighter in 0..level {
        if is_linked(toks, at, tighter + 1) {
            let (links, next) = links(alloc, toks, end, at, depth, tighter + 1)?;
            value = joined(alloc, value, links)?;
            at = next;
        }
    }
    Ok((value, at))
}

/// An expression inside parentheses, which nest no deeper than `depth`.
#[cycle(expression)]
pub fn inside(
    alloc: Global,
    toks: &[Tok<'_>],
    end: usize,
    at: usize,
    depth: usize,
) -> Result<(Expr, usize), Stop>
    ensures { Gives tree_view toks.now result (spec.inside (length toks.now) depth (ahead toks.now at)) }
{
    if depth == 0 {
        return Err(refuse(toks, end, at));
    }
    levelled(alloc, toks, end, at, depth - 1, LOOSEST)
}

/// An expression in which parentheses nest no deeper than `depth`.
#[tactic(auto, unfolding(grammar::specs::Expressions::expression))]
pub fn expression(
    alloc: Global,
    toks: &[Tok<'_>],
    end: usize,
    at: usize,
    depth: usize,
) -> Result<(Expr, usize), Stop>
    ensures { Gives tree_view toks.now result (spec.expression (length toks.now) depth (ahead toks.now at)) }
{
    levelled(alloc, toks, end, at, depth, LOOSEST)
}
