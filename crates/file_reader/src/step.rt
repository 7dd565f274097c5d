// Steps of charts (IEC 61131-3, 2.6.2), and lists of their names.
ghost use Rattle.std.specs.Prelude.{[], length, option_map};
ghost use Rattle.source_tree.specs.SyntaxView as view;
ghost use Rattle.grammar.specs.ChartSteps as spec;
ghost use Rattle.grammar.specs.Reading.{Gives, ahead};

use crate::declaration::others;
use grammar::Stop;
use source_tree::{Brackets, ChartStep, Mark, Name, StepAction, Steps, Terminal, Tok};
use st_reader::{after, expect, named, opened, refuse, token, upper};
use std::alloc::Global;

/// A name, where one stands.
#[tactic(auto, unfolding(grammar::specs::ChartSteps::name_or_none))]
pub fn name_or_none(
    alloc: Global,
    toks: &[Tok<'_>],
    at: usize,
) -> Result<(Option<Name>, usize), Stop>
    ensures { Gives (option_map view.name_view) toks.now result (spec.name_or_none (ahead toks.now at)) }
{
    let Some(first) = token(toks, at) else {
        return Ok((None, at));
    };
    match first.terminal {
        Terminal::Name => Ok((Some(upper(alloc, first.slice, first.at)?), at + 1)),
        _ => Ok((None, at)),
    }
}

/// `(word)` or `()` behind the name of an action, or nothing.
#[tactic(auto, unfolding(grammar::specs::ChartSteps::brackets))]
fn brackets(
    alloc: Global,
    toks: &[Tok<'_>],
    end: usize,
    at: usize,
) -> Result<(Option<Brackets>, usize), Stop>
    ensures { Gives (option_map view.brackets_view) toks.now result (spec.brackets (ahead toks.now at)) }
{
    let Some((place, at)) = opened(toks, at) else {
        return Ok((None, at));
    };
    let (word, at) = name_or_none(alloc, toks, at)?;
    let at = expect(Mark::Close, toks, end, at)?;
    Ok((Some(Brackets { at: place, word }), at))
}

/// An action of a step.
#[tactic(auto, unfolding(grammar::specs::ChartSteps::step_action))]
fn step_action(
    alloc: Global,
    toks: &[Tok<'_>],
    end: usize,
    at: usize,
) -> Result<(StepAction, usize), Stop>
    ensures { Gives view.step_action_view toks.now result (spec.step_action (ahead toks.now at)) }
{
    let (action, at) = named(alloc, toks, end, at)?;
    let (brackets, at) = brackets(alloc, toks, end, at)?;
    let at = expect(Mark::Semicolon, toks, end, at)?;
    Ok((StepAction { action, brackets }, at))
}

/// The actions of a step, up to END_STEP.
fn step_actions(
    alloc: Global,
    toks: &[Tok<'_>],
    end: usize,
    mut at: usize,
) -> Result<(Vec<StepAction>, usize), Stop>
    ensures { Gives (λ v. view.step_actions_view v.items) toks.now result (spec.step_actions (length toks.now) [] (ahead toks.now at)) }
{
    let mut found = Vec::new(alloc);
    for _turn in 0..toks.len() {
        if let Some(next) = after(Mark::EndStep, toks, at) {
            return Ok((found, next));
        }
        let (next, behind) = step_action(alloc, toks, end, at)?;
        found.push(next)?;
        at = behind;
    }
    Err(refuse(toks, end, at))
}

/// A step from behind the word that begins it, which stands at `place` in the text.
#[tactic(auto, unfolding(grammar::specs::ChartSteps::chart_step))]
pub fn chart_step(
    alloc: Global,
    is_initial: bool,
    place: usize,
    toks: &[Tok<'_>],
    end: usize,
    at: usize,
) -> Result<(ChartStep, usize), Stop>
    ensures { Gives view.chart_step_view toks.now result (spec.chart_step (length toks.now) is_initial place (ahead toks.now at)) }
{
    let (name, at) = named(alloc, toks, end, at)?;
    let at = expect(Mark::Colon, toks, end, at)?;
    let (actions, at) = step_actions(alloc, toks, end, at)?;
    let found = ChartStep {
        at: place,
        is_initial,
        name,
        actions,
    };
    Ok((found, at))
}

/// The steps before or behind a transition: a name, or names in parentheses.
#[tactic(auto, unfolding(grammar::specs::ChartSteps::steps))]
pub fn steps(alloc: Global, toks: &[Tok<'_>], end: usize, at: usize) -> Result<(Steps, usize), Stop>
    ensures { Gives view.steps_view toks.now result (spec.steps (length toks.now) (ahead toks.now at)) }
{
    let Some((place, at)) = opened(toks, at) else {
        let (only, at) = named(alloc, toks, end, at)?;
        return Ok((Steps::One(only), at));
    };
    let (first, at) = named(alloc, toks, end, at)?;
    let (others, at) = others(alloc, toks, end, at)?;
    let at = expect(Mark::Close, toks, end, at)?;
    Ok((Steps::Several(place, first, others), at))
}
