// From the bytes of a text to its tokens.
ghost use Rattle.std.specs.Prelude.{◌≡◌, List, length, true, All, IfOk, IfErr};
ghost use Rattle.source_tree.specs.Tokens.{Lexeme, Spells, token, is_formed};
ghost use Rattle.source_tree.specs.Terminals.{IsClassified};
ghost use Rattle.source_tree.specs.Places.{ArePlaced};
ghost use Rattle.st_lexer.specs.Parts.{Part, IsCut, KeepsRules, IsSoundText};
ghost use Rattle.st_lexer.specs.Lexing.{lexemes_of, IsRightFault};
ghost use Rattle.rules.specs.declared.fault.Fault.TheVariants.{Refused};

use crate::broken_rules::stuck_rule;
use crate::classes::mark_len;
use crate::front::{Front, front_of, gap_len};
use crate::terminals::terminal;
use rules::{Fault, Refusal, Rule};
use source_tree::{Tok, TokenClass};
use std::alloc::Global;
use std::str;

// The slice of a token as text: tokens are ASCII.
fn token_text<'a>(class: TokenClass, slice: &'a [u8]) -> &'a str
    requires { is_formed (token class slice.now) ≡ true }
    ensures { result.now ≡ slice.now }
{
    unsafe { str::from_utf8_unchecked(slice) }
}

fn refused(rule: Rule, at: usize) -> Fault
    ensures { result ≡ Refused (record { rule = rule; at = at }) }
{
    Fault::Refused(Refusal { rule, at })
}

/// The tokens that a text spells, in the order of the text, each with what it is for the grammar; or the first rule that it breaks. A text is
/// bytes and need not be UTF-8; a UTF-8 mark may stand before it (IEC 61131-3, 2.1).
pub fn lex(alloc: Global, text: &[u8]) -> Result<Vec<Tok<'_>>, Fault>
    ensures spelled { IfOk result (λ v. Spells text.now (lexemes_of v.items)) }
    ensures kept { IfOk result (λ v. All KeepsRules (lexemes_of v.items)) }
    ensures sound { IfOk result (λ v. IsSoundText text.now) }
    ensures classified { IfOk result (λ v. All IsClassified v.items) }
    ensures placed { IfOk result (λ v. ArePlaced 0 (length text.now) v.items) }
    ensures refused { IfErr result (λ e. IsRightFault text.now e) }
{
    let mut at = mark_len(text);
    let (_, mut rest) = text.split_at(at);
    let mut tokens = Vec::new(alloc);
    while !rest.is_empty() {
        match front_of(rest) {
            None => return Err(refused(stuck_rule(rest), at)),
            Some(Front::Gap(size)) => {
                let size = gap_len(rest, size);
                let (_, behind) = rest.split_at(size);
                at += size;
                rest = behind;
            }
            Some(Front::Token(class, size)) => {
                let (slice, behind) = rest.split_at(size);
                let slice = token_text(class, slice);
                let terminal = match terminal(class, slice) {
                    Ok(terminal) => terminal,
                    Err(rule) => return Err(refused(rule, at)),
                };
                tokens.push(Tok {
                    class,
                    slice,
                    terminal,
                    at,
                })?;
                at += size;
                rest = behind;
            }
        }
    }
    Ok(tokens)
}

/// One reading of a text: it spells at most one list of tokens.
pub fn one_spelling(text: &[u8])
    ensures { (ts us : List Lexeme) → Spells text.now ts → Spells text.now us → ts ≡ us }
{}

/// One cut of a text: it is parts in exactly one way, and so each rule is broken at definite places.
pub fn one_cut(text: &[u8])
    ensures some { (parts : List Part) × IsCut text.now parts }
    ensures once { (ps qs : List Part) → IsCut text.now ps → IsCut text.now qs → ps ≡ qs }
{}
