// Paths of names.
ghost use Rattle.std.specs.Prelude.{[], length};
ghost use Rattle.source_tree.specs.SyntaxView as view;
ghost use Rattle.grammar.specs.Expressions as spec;
ghost use Rattle.grammar.specs.Reading.{Gives, ahead};

use crate::cursor::{after, named};
use grammar::Stop;
use source_tree::{Mark, Name, Path, Tok};
use std::alloc::Global;

/// The names behind points.
fn members(
    alloc: Global,
    toks: &[Tok<'_>],
    end: usize,
    mut at: usize,
) -> Result<(Vec<Name>, usize), Stop>
    ensures { Gives (λ v. view.names_view v.items) toks.now result (spec.members (length toks.now) [] (ahead toks.now at)) }
{
    let mut names = Vec::new(alloc);
    for _turn in 0..toks.len() {
        let Some(next) = after(Mark::Point, toks, at) else {
            return Ok((names, at));
        };
        let (name, next) = named(alloc, toks, end, next)?;
        names.push(name)?;
        at = next;
    }
    Ok((names, at))
}

/// The path that begins with a name, from the place behind it.
#[tactic(auto, unfolding(grammar::specs::Expressions::path_from))]
pub fn path_from(
    alloc: Global,
    first: Name,
    toks: &[Tok<'_>],
    end: usize,
    at: usize,
) -> Result<(Path, usize), Stop>
    ensures { Gives view.path_view toks.now result (spec.path_from (length toks.now) (view.name_view first) (ahead toks.now at)) }
{
    let (members, at) = members(alloc, toks, end, at)?;
    Ok((Path { first, members }, at))
}
