// What stands behind the first word of a line.
ghost use Rattle.std.specs.Prelude.{◌≡◌, length};
ghost use Rattle.source_tree.specs.SyntaxView.{name_view};
ghost use Rattle.grammar.specs.Reading.{Gives, given, ahead};
ghost use Rattle.relation_lines.specs.View.{content_view};
ghost use Rattle.relation_lines.specs.Reading as spec;

use crate::line::{Condition, Content, Setting};
use crate::word::{FirstWord, agreement_of, side_of};
use grammar::{DEPTH, Stop};
use plc_types::Operator;
use source_tree::{Name, Terminal, Tok};
use st_reader::{expression, named, numbered, refuse, token};
use std::alloc::Global;

/// The place of `=`, and the place behind it.
#[tactic(auto, unfolding(crate::specs::Reading::equal_sign))]
fn equal_sign(toks: &[Tok<'_>], at: usize) -> Option<(usize, usize)>
    ensures { given (λ place. place) toks.now result ≡ spec.equal_sign (ahead toks.now at) }
{
    let first = token(toks, at)?;
    match first.terminal {
        Terminal::Operator(Operator::Equal) => Some((first.at, at + 1)),
        _ => None,
    }
}

/// A number.
#[tactic(auto, unfolding(crate::specs::Reading::set_to))]
fn set_to(
    setting: Setting,
    toks: &[Tok<'_>],
    end: usize,
    at: usize,
) -> Result<(Content, usize), Stop>
    ensures { Gives content_view toks.now result (spec.set_to setting (ahead toks.now at)) }
{
    let ((value, place), at) = numbered(toks, end, at)?;
    Ok((Content::Setting(setting, value, place), at))
}

/// EQUAL or FREE.
#[tactic(auto, unfolding(crate::specs::Reading::agreed))]
fn agreed(alloc: Global, toks: &[Tok<'_>], end: usize, at: usize) -> Result<(Content, usize), Stop>
    ensures { Gives content_view toks.now result (spec.agreed (ahead toks.now at)) }
{
    let (word, next) = named(alloc, toks, end, at)?;
    match agreement_of(word.text.as_str()) {
        Some(equal) => Ok((Content::Faults(equal, word.at), next)),
        None => Err(refuse(toks, end, at)),
    }
}

/// `= b` behind a name, or a name behind OLD or NEW.
fn input_or(
    alloc: Global,
    first: Name,
    toks: &[Tok<'_>],
    end: usize,
    at: usize,
) -> Result<(Content, usize), Stop>
    ensures { Gives content_view toks.now result (spec.input_or (name_view first) (ahead toks.now at) (spec.equal_sign (ahead toks.now at))) }
{
    if let Some((place, at)) = equal_sign(toks, at) {
        let (second, at) = named(alloc, toks, end, at)?;
        return Ok((Content::Paired(first, place, second), at));
    }
    match side_of(first.text.as_str()) {
        Some(side) => {
            let (name, at) = named(alloc, toks, end, at)?;
            Ok((Content::Single(side, first.at, name), at))
        }
        None => Err(refuse(toks, end, at)),
    }
}

/// `a = b`, `OLD a` or `NEW a`.
#[tactic(auto, unfolding(crate::specs::Reading::input))]
fn input(alloc: Global, toks: &[Tok<'_>], end: usize, at: usize) -> Result<(Content, usize), Stop>
    ensures { Gives content_view toks.now result (spec.input (ahead toks.now at)) }
{
    let (first, at) = named(alloc, toks, end, at)?;
    input_or(alloc, first, toks, end, at)
}

/// An expression.
#[tactic(auto, unfolding(crate::specs::Reading::condition))]
fn condition(
    alloc: Global,
    condition: Condition,
    toks: &[Tok<'_>],
    end: usize,
    at: usize,
) -> Result<(Content, usize), Stop>
    ensures { Gives content_view toks.now result (spec.condition (length toks.now) DEPTH condition (ahead toks.now at)) }
{
    let (value, at) = expression(alloc, toks, end, at, DEPTH)?;
    Ok((Content::Clause(condition, value), at))
}

/// What a line says behind its first word, up to its semicolon.
#[tactic(auto, unfolding(crate::specs::Reading::content))]
pub fn content(
    alloc: Global,
    first: FirstWord,
    toks: &[Tok<'_>],
    end: usize,
    at: usize,
) -> Result<(Content, usize), Stop>
    ensures { Gives content_view toks.now result (spec.content (length toks.now) DEPTH first (ahead toks.now at)) }
{
    match first {
        FirstWord::Setting(setting) => set_to(setting, toks, end, at),
        FirstWord::Faults => agreed(alloc, toks, end, at),
        FirstWord::Input => input(alloc, toks, end, at),
        FirstWord::Clause(of) => condition(alloc, of, toks, end, at),
    }
}
