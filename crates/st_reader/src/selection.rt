// Labels of a CASE, and where they may stand (IEC 61131-3, 3.3.2.3).
ghost use Rattle.std.specs.Prelude.{◌≡◌, [], length};
ghost use Rattle.source_tree.specs.SyntaxView as view;
ghost use Rattle.grammar.specs.Ends as ends;
ghost use Rattle.grammar.specs.Labels as spec;
ghost use Rattle.grammar.specs.Reading.{Gives, ahead};

use crate::cursor::{after, refuse, same_mark, token};
use crate::initial_values::initial_value;
use grammar::Stop;
use source_tree::{Expr, Label, Mark, Terminal, Tok};
use std::alloc::Global;

/// Whether the token at a place, behind a name, makes the name a label.
pub fn is_label(toks: &[Tok<'_>], at: usize) -> bool
    ensures { result ≡ ends.is_label (ahead toks.now at) }
{
    let Some(first) = token(toks, at) else {
        return false;
    };
    match first.terminal {
        Terminal::Mark(mark) => {
            same_mark(mark, Mark::Colon)
                || same_mark(mark, Mark::Comma)
                || same_mark(mark, Mark::Range)
                || same_mark(mark, Mark::Hash)
        }
        _ => false,
    }
}

/// Whether the token at a place ends the entries of a CASE.
pub fn ends_entries(toks: &[Tok<'_>], at: usize) -> bool
    ensures { result ≡ ends.ends_entries (ahead toks.now at) }
{
    let Some(first) = token(toks, at) else {
        return false;
    };
    match first.terminal {
        Terminal::Mark(mark) => same_mark(mark, Mark::Else) || same_mark(mark, Mark::EndCase),
        _ => false,
    }
}

/// `..` and the last value of a range, or nothing.
#[tactic(auto, unfolding(grammar::specs::Labels::high))]
fn high(
    alloc: Global,
    toks: &[Tok<'_>],
    end: usize,
    at: usize,
) -> Result<(Option<Expr>, usize), Stop>
    ensures { Gives view.initial_view toks.now result (spec.high (ahead toks.now at)) }
{
    match after(Mark::Range, toks, at) {
        Some(at) => {
            let (value, at) = initial_value(alloc, toks, end, at)?;
            Ok((Some(value), at))
        }
        None => Ok((None, at)),
    }
}

/// A label: a value, or a range of values.
#[tactic(auto, unfolding(grammar::specs::Labels::label))]
fn label(alloc: Global, toks: &[Tok<'_>], end: usize, at: usize) -> Result<(Label, usize), Stop>
    ensures { Gives view.label_view toks.now result (spec.label (ahead toks.now at)) }
{
    let (low, at) = initial_value(alloc, toks, end, at)?;
    let (high, at) = high(alloc, toks, end, at)?;
    Ok((Label { low, high }, at))
}

/// Labels with commas between them.
pub fn labels(
    alloc: Global,
    toks: &[Tok<'_>],
    end: usize,
    mut at: usize,
) -> Result<(Vec<Label>, usize), Stop>
    ensures { Gives (λ v. view.labels_view v.items) toks.now result (spec.labels (length toks.now) [] (ahead toks.now at)) }
{
    let mut found = Vec::new(alloc);
    for _turn in 0..toks.len() {
        let (next, behind) = label(alloc, toks, end, at)?;
        found.push(next)?;
        let Some(behind) = after(Mark::Comma, toks, behind) else {
            return Ok((found, behind));
        };
        at = behind;
    }
    Err(refuse(toks, end, at))
}
