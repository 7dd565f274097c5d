// Transitions of charts (IEC 61131-3, 2.6.3).
ghost use Rattle.std.specs.Prelude.{length, option_map};
ghost use Rattle.source_tree.specs.SyntaxView as view;
ghost use Rattle.grammar.specs.Charts as spec;
ghost use Rattle.grammar.specs.Reading.{Gives, ahead};

use crate::step::{name_or_none, steps};
use grammar::{DEPTH, Stop};
use source_tree::{ChartTransition, Expr, Mark, Priority, Steps, Tok};
use st_reader::{expect, expression, named, numbered, opened, refuse};
use std::alloc::Global;

/// The place in the text of the word PRIORITY, which is a name like any other elsewhere.
#[tactic(auto, unfolding(grammar::specs::Charts::priority_word))]
fn priority_word(
    alloc: Global,
    toks: &[Tok<'_>],
    end: usize,
    at: usize,
) -> Result<(usize, usize), Stop>
    ensures { Gives (λ place. place) toks.now result (spec.priority_word (ahead toks.now at)) }
{
    let (word, next) = named(alloc, toks, end, at)?;
    if word.text.as_str() != "PRIORITY" {
        return Err(refuse(toks, end, at));
    }
    Ok((word.at, next))
}

/// `(PRIORITY := number)`, or nothing.
#[tactic(auto, unfolding(grammar::specs::Charts::priority))]
fn priority(
    alloc: Global,
    toks: &[Tok<'_>],
    end: usize,
    at: usize,
) -> Result<(Option<Priority>, usize), Stop>
    ensures { Gives (option_map view.priority_view) toks.now result (spec.priority (ahead toks.now at)) }
{
    let Some((place, at)) = opened(toks, at) else {
        return Ok((None, at));
    };
    let (word_at, at) = priority_word(alloc, toks, end, at)?;
    let at = expect(Mark::Assign, toks, end, at)?;
    let ((value, value_at), at) = numbered(toks, end, at)?;
    let at = expect(Mark::Close, toks, end, at)?;
    let found = Priority {
        at: place,
        word_at,
        value,
        value_at,
    };
    Ok((Some(found), at))
}

/// FROM and the steps before a transition, TO and the steps behind it.
#[tactic(auto, unfolding(grammar::specs::Charts::route))]
fn route(
    alloc: Global,
    toks: &[Tok<'_>],
    end: usize,
    at: usize,
) -> Result<((Steps, Steps), usize), Stop>
    ensures { Gives (λ s. (view.steps_view s.0, view.steps_view s.1)) toks.now result (spec.route (length toks.now) DEPTH (ahead toks.now at)) }
{
    let at = expect(Mark::From, toks, end, at)?;
    let (from, at) = steps(alloc, toks, end, at)?;
    let at = expect(Mark::To, toks, end, at)?;
    let (to, at) = steps(alloc, toks, end, at)?;
    Ok(((from, to), at))
}

/// `:=`, the condition of a transition, and what ends it.
#[tactic(auto, unfolding(grammar::specs::Charts::condition))]
fn condition(alloc: Global, toks: &[Tok<'_>], end: usize, at: usize) -> Result<(Expr, usize), Stop>
    ensures { Gives view.tree_view toks.now result (spec.condition (length toks.now) DEPTH (ahead toks.now at)) }
{
    let at = expect(Mark::Assign, toks, end, at)?;
    let (found, at) = expression(alloc, toks, end, at, DEPTH)?;
    let at = expect(Mark::Semicolon, toks, end, at)?;
    let at = expect(Mark::EndTransition, toks, end, at)?;
    Ok((found, at))
}

/// A transition from behind TRANSITION, which stands at `place` in the text.
#[tactic(auto, unfolding(grammar::specs::Charts::transition))]
pub fn transition(
    alloc: Global,
    place: usize,
    toks: &[Tok<'_>],
    end: usize,
    at: usize,
) -> Result<(ChartTransition, usize), Stop>
    ensures { Gives view.chart_transition_view toks.now result (spec.transition (length toks.now) DEPTH place (ahead toks.now at)) }
{
    let (name, at) = name_or_none(alloc, toks, at)?;
    let (priority, at) = priority(alloc, toks, end, at)?;
    let ((from, to), at) = route(alloc, toks, end, at)?;
    let (condition, at) = condition(alloc, toks, end, at)?;
    let found = ChartTransition {
        at: place,
        name,
        priority,
        from,
        to,
        condition,
    };
    Ok((found, at))
}
