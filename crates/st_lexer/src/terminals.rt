// What tokens are for the grammar.
ghost use Rattle.std.specs.Prelude.{◌≡◌, [], ◌∷◌, IfOk, IfErr, OnOk};
ghost use Rattle.source_tree.specs.declared.token.Terminal.TheVariants.{LeftOut};
ghost use Rattle.source_tree.specs.Terminals.{entry_or, signs, terminal_of};
ghost use Rattle.source_tree.specs.Tokens.{token};
ghost use Rattle.st_lexer.specs.Parts.{piece_rule};

use crate::numbers::number;
use crate::words::word_terminal;
use plc_types::Operator;
use rules::Rule;
use source_tree::{Mark, Terminal, TokenClass};

const LONGEST_WORD: usize = 64;

#[tactic(auto, unfolding(source_tree::specs::Terminals::signs))]
fn sign_of_one(b: u8) -> Terminal
    ensures { result ≡ entry_or LeftOut signs (b ∷ []) }
{
    match b {
        b'(' => Terminal::Open,
        b')' => Terminal::Mark(Mark::Close),
        b',' => Terminal::Mark(Mark::Comma),
        b';' => Terminal::Mark(Mark::Semicolon),
        b':' => Terminal::Mark(Mark::Colon),
        b'.' => Terminal::Mark(Mark::Point),
        b'#' => Terminal::Mark(Mark::Hash),
        b'+' => Terminal::Operator(Operator::Plus),
        b'-' => Terminal::Operator(Operator::Minus),
        b'*' => Terminal::Operator(Operator::Times),
        b'/' => Terminal::Operator(Operator::Divide),
        b'<' => Terminal::Operator(Operator::Less),
        b'>' => Terminal::Operator(Operator::Greater),
        b'=' => Terminal::Operator(Operator::Equal),
        b'&' => Terminal::Operator(Operator::And),
        _ => Terminal::LeftOut,
    }
}

#[tactic(auto, unfolding(source_tree::specs::Terminals::signs))]
fn sign_of_two(b: u8, c: u8) -> Terminal
    ensures { result ≡ entry_or LeftOut signs (b ∷ c ∷ []) }
{
    match (b, c) {
        (b':', b'=') => Terminal::Mark(Mark::Assign),
        (b'=', b'>') => Terminal::Mark(Mark::Arrow),
        (b'<', b'>') => Terminal::Operator(Operator::NotEqual),
        (b'<', b'=') => Terminal::Operator(Operator::LessEqual),
        (b'>', b'=') => Terminal::Operator(Operator::GreaterEqual),
        (b'.', b'.') => Terminal::Mark(Mark::Range),
        _ => Terminal::LeftOut,
    }
}

fn sign_terminal(slice: &[u8]) -> Terminal
    ensures { result ≡ entry_or LeftOut signs slice.now }
{
    match slice {
        [b] => sign_of_one(*b),
        [b, c] => sign_of_two(*b, *c),
        _ => Terminal::LeftOut,
    }
}

/// What a token of a class and a slice is, or the rule that it breaks.
#[tactic(auto, unfolding(source_tree::specs::Terminals::terminal_of))]
pub fn terminal(class: TokenClass, slice: &str) -> Result<Terminal, Rule>
    ensures value { IfOk result (λ t. t ≡ terminal_of class slice.now) }
    ensures kept { OnOk result (piece_rule (token class slice.now) ≡ None) }
    ensures broken { IfErr result (λ r. piece_rule (token class slice.now) ≡ Some r) }
{
    match class {
        TokenClass::Word if slice.len() > LONGEST_WORD => Err(Rule::WordLength),
        TokenClass::Word => Ok(word_terminal(slice)),
        TokenClass::Number => Ok(Terminal::Number(number(slice.as_bytes())?)),
        TokenClass::Sign => Ok(sign_terminal(slice.as_bytes())),
    }
}
