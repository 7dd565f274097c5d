// Sequential function charts (IEC 61131-3, 2.6).
ghost use Rattle.std.specs.Prelude.{◌≡◌, [], length};
ghost use Rattle.source_tree.specs.SyntaxView as view;
ghost use Rattle.grammar.specs.Charts as spec;
ghost use Rattle.grammar.specs.Ends as ends;
ghost use Rattle.grammar.specs.Reading.{Gives, ahead};

use crate::step::chart_step;
use crate::transition::transition;
use grammar::{DEPTH, Stop};
use source_tree::{Chart, ChartAction, ChartPart, Mark, PartWord, Tok};
use st_reader::{expect, named, part_word, refuse, statements};
use std::alloc::Global;

/// An action from behind ACTION, which stands at `place` in the text.
#[tactic(auto, unfolding(grammar::specs::Charts::chart_action))]
fn chart_action(
    alloc: Global,
    place: usize,
    toks: &[Tok<'_>],
    end: usize,
    at: usize,
) -> Result<(ChartAction, usize), Stop>
    ensures { Gives view.chart_action_view toks.now result (spec.chart_action (length toks.now) DEPTH place (ahead toks.now at)) }
{
    let (name, at) = named(alloc, toks, end, at)?;
    let at = expect(Mark::Colon, toks, end, at)?;
    let (body, at) = statements(alloc, toks, end, at, DEPTH, false)?;
    let at = expect(Mark::EndAction, toks, end, at)?;
    let found = ChartAction {
        at: place,
        name,
        body,
    };
    Ok((found, at))
}

/// A part from behind the word that begins it, which stands at `place` in the text.
#[tactic(auto, unfolding(grammar::specs::Charts::part_of))]
fn part_of(
    alloc: Global,
    word: PartWord,
    place: usize,
    toks: &[Tok<'_>],
    end: usize,
    at: usize,
) -> Result<(ChartPart, usize), Stop>
    ensures { Gives view.part_view toks.now result (spec.part_of (length toks.now) DEPTH word place (ahead toks.now at)) }
{
    match word {
        PartWord::InitialStep => {
            let (found, at) = chart_step(alloc, true, place, toks, end, at)?;
            Ok((ChartPart::Step(found), at))
        }
        PartWord::Step => {
            let (found, at) = chart_step(alloc, false, place, toks, end, at)?;
            Ok((ChartPart::Step(found), at))
        }
        PartWord::Transition => {
            let (found, at) = transition(alloc, place, toks, end, at)?;
            Ok((ChartPart::Transition(Box::new(alloc, found)?), at))
        }
        PartWord::Action => {
            let (found, at) = chart_action(alloc, place, toks, end, at)?;
            Ok((ChartPart::Action(found), at))
        }
    }
}

/// A part of a chart.
#[tactic(auto, unfolding(grammar::specs::Charts::chart_part))]
fn chart_part(
    alloc: Global,
    toks: &[Tok<'_>],
    end: usize,
    at: usize,
) -> Result<(ChartPart, usize), Stop>
    ensures { Gives view.part_view toks.now result (spec.chart_part (length toks.now) DEPTH (ahead toks.now at)) }
{
    match part_word(toks, at) {
        Some(((word, place), next)) => part_of(alloc, word, place, toks, end, next),
        None => Err(refuse(toks, end, at)),
    }
}

/// Whether the token at a place begins a part of a chart.
#[tactic(auto, unfolding(grammar::specs::Reading::part_word))]
pub fn begins_part(toks: &[Tok<'_>], at: usize) -> bool
    ensures { result ≡ ends.begins_part (ahead toks.now at) }
{
    part_word(toks, at).is_some()
}

/// Parts, of which there is at least one, up to a token that begins none.
fn parts(
    alloc: Global,
    toks: &[Tok<'_>],
    end: usize,
    mut at: usize,
) -> Result<(Vec<ChartPart>, usize), Stop>
    ensures { Gives (λ v. view.parts_view v.items) toks.now result (spec.parts (length toks.now) DEPTH (length toks.now) [] (ahead toks.now at)) }
{
    let mut found = Vec::new(alloc);
    for _turn in 0..toks.len() {
        let (next, behind) = chart_part(alloc, toks, end, at)?;
        found.push(next)?;
        if !begins_part(toks, behind) {
            return Ok((found, behind));
        }
        at = behind;
    }
    Err(refuse(toks, end, at))
}

/// A chart.
#[tactic(auto, unfolding(grammar::specs::Charts::chart))]
pub fn chart(alloc: Global, toks: &[Tok<'_>], end: usize, at: usize) -> Result<(Chart, usize), Stop>
    ensures { Gives (λ c. view.parts_view c.parts.items) toks.now result (spec.chart (length toks.now) DEPTH (ahead toks.now at)) }
{
    let (parts, at) = parts(alloc, toks, end, at)?;
    Ok((Chart { parts }, at))
}
