// What stands between FOR and DO (IEC 61131-3, 3.3.2.4).
ghost use Rattle.std.specs.Prelude.{length};
ghost use Rattle.source_tree.specs.SyntaxView as view;
ghost use Rattle.grammar.specs.Expressions.{expression};
ghost use Rattle.grammar.specs.Iterations as spec;
ghost use Rattle.grammar.specs.Reading.{Gives, ahead};

use crate::cursor::{after, expect, named};
use crate::expressions::expression;
use grammar::Stop;
use source_tree::{Expr, Iteration, Mark, Tok};
use std::alloc::Global;

/// BY and the step, or nothing.
#[tactic(auto, unfolding(grammar::specs::Iterations::step))]
fn step(
    alloc: Global,
    toks: &[Tok<'_>],
    end: usize,
    at: usize,
    depth: usize,
) -> Result<(Option<Expr>, usize), Stop>
    ensures { Gives view.initial_view toks.now result (spec.step (expression (length toks.now) depth) (ahead toks.now at)) }
{
    match after(Mark::By, toks, at) {
        Some(at) => {
            let (value, at) = expression(alloc, toks, end, at, depth)?;
            Ok((Some(value), at))
        }
        None => Ok((None, at)),
    }
}

/// What stands behind a FOR, whose place in the text is given, up to DO.
#[tactic(auto, unfolding(grammar::specs::Iterations::iteration_from))]
pub fn iteration(
    alloc: Global,
    place: usize,
    toks: &[Tok<'_>],
    end: usize,
    at: usize,
    depth: usize,
) -> Result<(Iteration, usize), Stop>
    ensures { Gives view.iteration_view toks.now result (spec.iteration_from (expression (length toks.now) depth) place (ahead toks.now at)) }
{
    let (control, at) = named(alloc, toks, end, at)?;
    let at = expect(Mark::Assign, toks, end, at)?;
    let (first, at) = expression(alloc, toks, end, at, depth)?;
    let at = expect(Mark::To, toks, end, at)?;
    let (last, at) = expression(alloc, toks, end, at, depth)?;
    let (step, at) = step(alloc, toks, end, at, depth)?;
    let at = expect(Mark::Do, toks, end, at)?;
    let found = Iteration {
        at: place,
        control,
        first,
        last,
        step,
    };
    Ok((found, at))
}
