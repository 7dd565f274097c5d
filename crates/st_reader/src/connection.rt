// Calls of blocks, from behind their parenthesis on (IEC 61131-3, 2.5.2.1 and 3.3.2).
ghost use Rattle.std.specs.Prelude.{[], length};
ghost use Rattle.source_tree.specs.SyntaxView as view;
ghost use Rattle.grammar.specs.Connections as spec;
ghost use Rattle.grammar.specs.Expressions.{inside};
ghost use Rattle.grammar.specs.Reading.{Gives, ahead};

use crate::cursor::{after, expect, named, refuse};
use crate::expressions::inside;
use crate::path::path_from;
use grammar::Stop;
use source_tree::{Connection, Mark, Name, Path, Stmt, Tok};
use std::alloc::Global;

/// The target that an output is copied to.
#[tactic(auto, unfolding(grammar::specs::Connections::target))]
fn target(alloc: Global, toks: &[Tok<'_>], end: usize, at: usize) -> Result<(Path, usize), Stop>
    ensures { Gives view.path_view toks.now result (spec.target (length toks.now) (ahead toks.now at)) }
{
    let (first, at) = named(alloc, toks, end, at)?;
    path_from(alloc, first, toks, end, at)
}

/// A connection from behind its name: `:=` and the value of an input, or `=>` and the target of an output.
#[tactic(auto, unfolding(grammar::specs::Connections::connected))]
fn connected(
    alloc: Global,
    name: Name,
    toks: &[Tok<'_>],
    end: usize,
    at: usize,
    depth: usize,
) -> Result<(Connection, usize), Stop>
    ensures { Gives view.connection_view toks.now result (spec.connected (length toks.now) (inside (length toks.now) depth) (view.name_view name) (ahead toks.now at)) }
{
    match after(Mark::Assign, toks, at) {
        Some(at) => {
            let (value, at) = inside(alloc, toks, end, at, depth)?;
            Ok((Connection::Input(name, value), at))
        }
        None => {
            let at = expect(Mark::Arrow, toks, end, at)?;
            let (target, at) = target(alloc, toks, end, at)?;
            Ok((Connection::Output(name, target), at))
        }
    }
}

/// A connection.
#[tactic(auto, unfolding(grammar::specs::Connections::connection))]
fn connection(
    alloc: Global,
    toks: &[Tok<'_>],
    end: usize,
    at: usize,
    depth: usize,
) -> Result<(Connection, usize), Stop>
    ensures { Gives view.connection_view toks.now result (spec.connection (length toks.now) (inside (length toks.now) depth) (ahead toks.now at)) }
{
    let (name, at) = named(alloc, toks, end, at)?;
    connected(alloc, name, toks, end, at, depth)
}

/// Connections with commas between them.
fn connections_from(
    alloc: Global,
    toks: &[Tok<'_>],
    end: usize,
    mut at: usize,
    depth: usize,
) -> Result<(Vec<Connection>, usize), Stop>
    ensures { Gives (λ v. view.connections_view v.items) toks.now result (spec.connections_from (length toks.now) (inside (length toks.now) depth) (length toks.now) [] (ahead toks.now at)) }
{
    let mut found = Vec::new(alloc);
    for _turn in 0..toks.len() {
        let (next, behind) = connection(alloc, toks, end, at, depth)?;
        found.push(next)?;
        let Some(behind) = after(Mark::Comma, toks, behind) else {
            return Ok((found, behind));
        };
        at = behind;
    }
    Err(refuse(toks, end, at))
}

/// The connections of a call and `)`, from the place behind `(`.
#[tactic(auto, unfolding(grammar::specs::Connections::connections))]
fn connections(
    alloc: Global,
    toks: &[Tok<'_>],
    end: usize,
    at: usize,
    depth: usize,
) -> Result<(Vec<Connection>, usize), Stop>
    ensures { Gives (λ v. view.connections_view v.items) toks.now result (spec.connections (length toks.now) (inside (length toks.now) depth) (ahead toks.now at)) }
{
    if let Some(next) = after(Mark::Close, toks, at) {
        return Ok((Vec::new(alloc), next));
    }
    let (found, next) = connections_from(alloc, toks, end, at, depth)?;
    let next = expect(Mark::Close, toks, end, next)?;
    Ok((found, next))
}

/// The rest of a call of a block, from behind its parenthesis, which stands at `place` in the text.
#[tactic(auto, unfolding(grammar::specs::Connections::invoked))]
pub fn invoked(
    alloc: Global,
    name: Name,
    place: usize,
    toks: &[Tok<'_>],
    end: usize,
    at: usize,
    depth: usize,
) -> Result<(Stmt, usize), Stop>
    ensures { Gives view.stmt_view toks.now result (spec.invoked (length toks.now) (inside (length toks.now) depth) (view.name_view name) place (ahead toks.now at)) }
{
    let (found, at) = connections(alloc, toks, end, at, depth)?;
    let at = expect(Mark::Semicolon, toks, end, at)?;
    Ok((Stmt::Call(name, place, found), at))
}
