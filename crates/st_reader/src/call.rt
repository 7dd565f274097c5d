// Calls of functions, from behind their names on (IEC 61131-3, 2.5.1.1).
ghost use Rattle.std.specs.Prelude.{◌≡◌, length, option_map};
ghost use Rattle.source_tree.specs.SyntaxView as view;
ghost use Rattle.source_tree.specs.Syntax as syntax;
ghost use Rattle.grammar.specs.Expressions as spec;
ghost use Rattle.grammar.specs.Reading.{Gives, ahead};

use crate::cursor::{after, expect, named, refuse, token};
use crate::expressions::inside;
use grammar::Stop;
use source_tree::{Argument, Expr, Mark, Name, Terminal, Tok};
use std::alloc::Global;

/// Whether an argument by name stands at a place: a name, and `:=`.
fn is_by_name(toks: &[Tok<'_>], at: usize) -> bool
    ensures { result ≡ spec.is_by_name (ahead toks.now at) }
{
    let Some(first) = token(toks, at) else {
        return false;
    };
    match first.terminal {
        Terminal::Name => after(Mark::Assign, toks, at + 1).is_some(),
        _ => false,
    }
}

/// What stands before the value of an argument: a name and `:=` where it is by name.
#[tactic(auto, unfolding(grammar::specs::Expressions::argument_name))]
fn argument_name(
    alloc: Global,
    by_name: bool,
    toks: &[Tok<'_>],
    end: usize,
    at: usize,
) -> Result<(Option<Name>, usize), Stop>
    ensures { Gives (option_map view.name_view) toks.now result (spec.argument_name by_name (ahead toks.now at)) }
{
    if !by_name {
        return Ok((None, at));
    }
    let (name, at) = named(alloc, toks, end, at)?;
    let at = expect(Mark::Assign, toks, end, at)?;
    Ok((Some(name), at))
}

/// The arguments of a call, all by name or all by place.
#[cycle(expression)]
fn arguments_from(
    alloc: Global,
    by_name: bool,
    toks: &[Tok<'_>],
    end: usize,
    mut at: usize,
    depth: usize,
) -> Result<(Vec<Argument>, usize), Stop>
    ensures { Gives (λ v. view.arguments_view v.items) toks.now result (spec.arguments_from (length toks.now) (spec.inside (length toks.now) depth) by_name (length toks.now) syntax.no_arguments (ahead toks.now at)) }
{
    let mut found = Vec::new(alloc);
    for _turn in 0..toks.len() {
        let (name, next) = argument_name(alloc, by_name, toks, end, at)?;
        let (value, next) = inside(alloc, toks, end, next, depth)?;
        found.push(Argument { name, value })?;
        let Some(next) = after(Mark::Comma, toks, next) else {
            return Ok((found, next));
        };
        at = next;
    }
    Err(refuse(toks, end, at))
}

/// The arguments of a call and `)`, from the place behind `(`. The first argument decides for all whether they are
/// by name.
#[cycle(expression)]
#[tactic(auto, unfolding(grammar::specs::Expressions::arguments))]
pub fn arguments(
    alloc: Global,
    toks: &[Tok<'_>],
    end: usize,
    at: usize,
    depth: usize,
) -> Result<(Vec<Argument>, usize), Stop>
    ensures { Gives (λ v. view.arguments_view v.items) toks.now result (spec.arguments (length toks.now) (spec.inside (length toks.now) depth) (ahead toks.now at)) }
{
    if let Some(next) = after(Mark::Close, toks, at) {
        return Ok((Vec::new(alloc), next));
    }
    let by_name = is_by_name(toks, at);
    let (found, next) = arguments_from(alloc, by_name, toks, end, at, depth)?;
    let next = expect(Mark::Close, toks, end, next)?;
    Ok((found, next))
}

#[tactic(auto, using(grammar::proofs::Arguments::tree_call))]
pub fn call(name: Name, at: usize, arguments: Vec<Argument>) -> Expr
    ensures { view.tree_view result ≡ syntax.call (view.name_view name) at (view.arguments_view arguments.items) }
{
    Expr::Call(name, at, arguments)
}
