// Words that are left out, and how deep parentheses and statements nest.
ghost use Rattle.std.specs.Prelude.{ℕ, List, ◌≡◌, ◌+◌, ◌≤◌, IfOk, IfErr, IfSome, IfNone, Some, None};
ghost use Rattle.source_tree.specs.SyntaxView.{symbol, symbols};
ghost use Rattle.grammar.specs.Nesting.{behind, total, nothing_open, Shallow};
ghost use Rattle.grammar.specs.FirstFault.{fault_at, IsBroken, AreSoundTokens, IsFirstFault, AreFrom};
ghost use Rattle.source_tree.specs.declared.token.Tok.{Tok};
ghost use Rattle.rules.specs.declared.rule.Refusal.{Refusal};
ghost use Rattle.rules.specs.Rules.{IsFirst};

use grammar::{MOST_OPEN, Open};
use rules::{Refusal, Rule};
use source_tree::{Mark, Terminal, Tok};

/// What is open behind a token, or the rule that the token breaks.
#[tactic(auto, unfolding(grammar::specs::Marks::same_mark, grammar::specs::Nesting::open_parentheses, grammar::specs::Nesting::open_ifs, grammar::specs::Nesting::open_cases, grammar::specs::Nesting::open_iterations))]
fn step(held: Open, tok: Tok<'_>) -> Result<Open, Rule>
    requires { total held ≤ MOST_OPEN }
    ensures sound { IfOk result (λ o. fault_at held (symbol tok.entry) ≡ None) }
    ensures next { IfOk result (λ o. o ≡ behind held (symbol tok.entry)) }
    ensures few { IfOk result (λ o. total o ≤ MOST_OPEN) }
    ensures broken { IfErr result (λ r. fault_at held (symbol tok.entry) ≡ Some r) }
{
    let full = held.parentheses + held.ifs + held.cases + held.iterations == MOST_OPEN;
    let mut next = held;
    match tok.terminal {
        Terminal::LeftOut => return Err(Rule::LeftOutWord),
        Terminal::Open | Terminal::For | Terminal::Mark(Mark::If | Mark::Case) if full => {
            return Err(Rule::TooDeep);
        }
        Terminal::Open => next.parentheses += 1,
        Terminal::For => next.iterations += 1,
        Terminal::Mark(Mark::If) => next.ifs += 1,
        Terminal::Mark(Mark::Case) => next.cases += 1,
        Terminal::Mark(Mark::Close) => next.parentheses = held.parentheses.saturating_sub(1),
        Terminal::Mark(Mark::EndIf) => next.ifs = held.ifs.saturating_sub(1),
        Terminal::Mark(Mark::EndCase) => next.cases = held.cases.saturating_sub(1),
        Terminal::Mark(Mark::EndFor) => next.iterations = held.iterations.saturating_sub(1),
        _ => {}
    }
    Ok(next)
}

/// The first token that is a word left out (X1) or opens a 65th parenthesis, IF, CASE or FOR (G2).
pub fn first_fault(toks: &[Tok<'_>]) -> Option<Refusal>
    ensures first { IfSome result (IsFirstFault toks.now) }
    ensures none { IfNone result (AreSoundTokens toks.now) }
    ensures shallow { IfNone result (Shallow (symbols toks.now)) }
{
    let mut held = Open {
        parentheses: 0,
        ifs: 0,
        cases: 0,
        iterations: 0,
    };
    for at in 0..toks.len() {
        match step(held, toks[at]) {
            Ok(next) => held = next,
            Err(rule) => {
                return Some(Refusal {
                    rule,
                    at: toks[at].at,
                });
            }
        }
    }
    None
}

/// Where tokens stand one behind the other, the first in their order to break X1 or G2 is the first by place.
pub fn first_by_place()
    ensures { (toks : List Tok) (place : ℕ) (r : Refusal) → AreFrom place toks → IsFirstFault toks r → IsFirst (IsBroken nothing_open toks) r }
{}
