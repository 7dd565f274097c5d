// Literals (IEC 61131-3, 2.2.1).
ghost use Rattle.grammar.specs.Expressions as spec;
ghost use Rattle.grammar.specs.Reading.{Gives, ahead};

use crate::cursor::{expect, minus, numbered, refuse, token};
use grammar::Stop;
use plc_types::Elementary;
use source_tree::{Literal, Mark, Terminal, Tok};

/// What stands behind `type#`, with no minus sign before it.
#[tactic(auto, unfolding(grammar::specs::Expressions::typed_value))]
fn typed_value(
    kind: Elementary,
    place: usize,
    toks: &[Tok<'_>],
    end: usize,
    at: usize,
) -> Result<(Literal, usize), Stop>
    ensures { Gives (λ l. l) toks.now result (spec.typed_value kind place (ahead toks.now at)) }
{
    let Some(first) = token(toks, at) else {
        return Err(refuse(toks, end, at));
    };
    let value_at = first.at;
    let found = match first.terminal {
        Terminal::Number(value) => Literal::TypedNumber {
            kind,
            at: place,
            minus: None,
            value,
            value_at,
        },
        Terminal::Truth(value) => Literal::TypedTruth {
            kind,
            at: place,
            value,
            value_at,
        },
        _ => return Err(refuse(toks, end, at)),
    };
    Ok((found, at + 1))
}

/// The rest of a literal that begins with an elementary type, from the place behind the type.
#[tactic(auto, unfolding(grammar::specs::Expressions::typed))]
fn typed(
    kind: Elementary,
    place: usize,
    toks: &[Tok<'_>],
    end: usize,
    at: usize,
) -> Result<(Literal, usize), Stop>
    ensures { Gives (λ l. l) toks.now result (spec.typed kind place (ahead toks.now at)) }
{
    let at = expect(Mark::Hash, toks, end, at)?;
    let Some((minus_at, at)) = minus(toks, at) else {
        return typed_value(kind, place, toks, end, at);
    };
    let ((value, value_at), at) = numbered(toks, end, at)?;
    let found = Literal::TypedNumber {
        kind,
        at: place,
        minus: Some(minus_at),
        value,
        value_at,
    };
    Ok((found, at))
}

/// A literal.
#[tactic(auto, unfolding(grammar::specs::Expressions::constant))]
pub fn constant(toks: &[Tok<'_>], end: usize, at: usize) -> Result<(Literal, usize), Stop>
    ensures { Gives (λ l. l) toks.now result (spec.constant (ahead toks.now at)) }
{
    let Some(first) = token(toks, at) else {
        return Err(refuse(toks, end, at));
    };
    let place = first.at;
    match first.terminal {
        Terminal::Number(value) => Ok((Literal::Number { value, at: place }, at + 1)),
        Terminal::Truth(value) => Ok((Literal::Truth { value, at: place }, at + 1)),
        Terminal::Type(kind) => typed(kind, place, toks, end, at + 1),
        _ => Err(refuse(toks, end, at)),
    }
}
