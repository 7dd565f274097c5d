// Steps over single tokens. Tokens are read from a place in their list on, and `end` is the length of their text.
ghost use Rattle.std.specs.Prelude.{◌≡◌, ◌<◌, ◌+◌, ◌∷◌, [], length, option_map, IfSome, IfNone, IfOk};
ghost use Rattle.source_tree.specs.SyntaxView as view;
ghost use Rattle.source_tree.specs.SyntaxView.{symbol};
ghost use Rattle.source_tree.specs.Levels.{level_of};
ghost use Rattle.grammar.specs.Marks as marks;
ghost use Rattle.grammar.specs.Reading as spec;
ghost use Rattle.grammar.specs.Reading.{Gives, GivesPlace, given, ahead};

use grammar::Stop;
use plc_types::{Operator, UnaryOperator};
use source_tree::{Mark, Name, PartWord, Terminal, Tok};
use std::alloc::{AllocError, Global};

/// The token at a place.
#[tactic(auto, using(grammar::proofs::Ahead::ahead_none))]
pub fn token<'t>(toks: &'t [Tok<'t>], at: usize) -> Option<Tok<'t>>
    ensures within { IfSome result (λ t. at < length toks.now) }
    ensures first { IfSome result (λ t. ahead toks.now at ≡ symbol t ∷ ahead toks.now (at + 1)) }
    ensures none { IfNone result (ahead toks.now at ≡ []) }
{
    if at < toks.len() {
        Some(toks[at])
    } else {
        None
    }
}

/// No tree goes on at a place: where there is no token, at the text's end.
pub fn refuse(toks: &[Tok<'_>], end: usize, at: usize) -> Stop {
    Stop::NoTree(token(toks, at).map_or(end, |t| t.at))
}

/// Whether two marks are the same.
#[tactic(auto, unfolding(grammar::specs::Marks::same_mark))]
pub fn same_mark(a: Mark, b: Mark) -> bool
    ensures { result ≡ marks.same_mark a b }
{
    a == b
}

/// The place behind a mark, where it stands.
#[tactic(auto, unfolding(grammar::specs::Reading::after))]
pub fn after(mark: Mark, toks: &[Tok<'_>], at: usize) -> Option<usize>
    ensures { option_map (λ rest. ahead toks.now rest) result ≡ spec.after mark (ahead toks.now at) }
{
    match token(toks, at)?.terminal {
        Terminal::Mark(found) if same_mark(found, mark) => Some(at + 1),
        _ => None,
    }
}

/// The place behind a mark that has to stand there.
pub fn expect(mark: Mark, toks: &[Tok<'_>], end: usize, at: usize) -> Result<usize, Stop>
    ensures { GivesPlace toks.now result (spec.after mark (ahead toks.now at)) }
{
    match after(mark, toks, at) {
        Some(next) => Ok(next),
        None => Err(refuse(toks, end, at)),
    }
}

fn level_of(operator: Operator) -> u8
    ensures { result ≡ level_of operator }
{
    match operator {
        Operator::Or => 7,
        Operator::Xor => 6,
        Operator::And => 5,
        Operator::Equal | Operator::NotEqual => 4,
        Operator::Less | Operator::Greater | Operator::LessEqual | Operator::GreaterEqual => 3,
        Operator::Plus | Operator::Minus => 2,
        Operator::Times | Operator::Divide | Operator::Mod => 1,
    }
}

/// An operator of a level and its place, and the place behind it.
#[tactic(auto, unfolding(grammar::specs::Reading::operator_of))]
pub fn operator_of(level: u8, toks: &[Tok<'_>], at: usize) -> Option<((Operator, usize), usize)>
    ensures { given (λ o. o) toks.now result ≡ spec.operator_of level (ahead toks.now at) }
{
    let first = token(toks, at)?;
    match first.terminal {
        Terminal::Operator(operator) if level_of(operator) == level => {
            Some(((operator, first.at), at + 1))
        }
        _ => None,
    }
}

/// A unary operator and its place, and the place behind it.
#[tactic(auto, unfolding(grammar::specs::Reading::sign))]
pub fn sign(toks: &[Tok<'_>], at: usize) -> Option<((UnaryOperator, usize), usize)>
    ensures { given (λ o. o) toks.now result ≡ spec.sign (ahead toks.now at) }
{
    let first = token(toks, at)?;
    match first.terminal {
        Terminal::Not => Some(((UnaryOperator::Not, first.at), at + 1)),
        Terminal::Operator(Operator::Minus) => Some(((UnaryOperator::Minus, first.at), at + 1)),
        _ => None,
    }
}

/// The place of a parenthesis that opens, and the place behind it.
#[tactic(auto, unfolding(grammar::specs::Reading::opened))]
pub fn opened(toks: &[Tok<'_>], at: usize) -> Option<(usize, usize)>
    ensures { given (λ place. place) toks.now result ≡ spec.opened (ahead toks.now at) }
{
    let first = token(toks, at)?;
    match first.terminal {
        Terminal::Open => Some((first.at, at + 1)),
        _ => None,
    }
}

/// A word that begins a part of a chart and its place, and the place behind it.
#[tactic(auto, unfolding(grammar::specs::Reading::part_word))]
pub fn part_word(toks: &[Tok<'_>], at: usize) -> Option<((PartWord, usize), usize)>
    ensures { given (λ w. w) toks.now result ≡ spec.part_word (ahead toks.now at) }
{
    let first = token(toks, at)?;
    match first.terminal {
        Terminal::Part(word) => Some(((word, first.at), at + 1)),
        _ => None,
    }
}

/// The place of a minus sign, and the place behind it.
#[tactic(auto, unfolding(grammar::specs::Reading::minus))]
pub fn minus(toks: &[Tok<'_>], at: usize) -> Option<(usize, usize)>
    ensures { given (λ place. place) toks.now result ≡ spec.minus (ahead toks.now at) }
{
    let first = token(toks, at)?;
    match first.terminal {
        Terminal::Operator(Operator::Minus) => Some((first.at, at + 1)),
        _ => None,
    }
}

/// A number and its place, and the place behind it.
#[tactic(auto, unfolding(grammar::specs::Reading::numbered))]
pub fn numbered(toks: &[Tok<'_>], end: usize, at: usize) -> Result<((u64, usize), usize), Stop>
    ensures { Gives (λ n. n) toks.now result (spec.numbered (ahead toks.now at)) }
{
    let Some(first) = token(toks, at) else {
        return Err(refuse(toks, end, at));
    };
    match first.terminal {
        Terminal::Number(value) => Ok(((value, first.at), at + 1)),
        _ => Err(refuse(toks, end, at)),
    }
}

/// The name of a word, in upper case.
pub fn upper(alloc: Global, text: &str, at: usize) -> Result<Name, AllocError>
    ensures { IfOk result (λ n. view.name_view n ≡ record { text = view.upper text.now; at = at }) }
{
    Ok(Name {
        text: text.to_ascii_uppercase(alloc)?,
        at,
    })
}

/// A name, and the place behind it.
#[tactic(auto, unfolding(grammar::specs::Reading::named))]
pub fn named(alloc: Global, toks: &[Tok<'_>], end: usize, at: usize) -> Result<(Name, usize), Stop>
    ensures { Gives view.name_view toks.now result (spec.named (ahead toks.now at)) }
{
    match token(toks, at) {
        Some(first) if first.terminal == Terminal::Name => {
            Ok((upper(alloc, first.slice, first.at)?, at + 1))
        }
        _ => Err(refuse(toks, end, at)),
    }
}
