ghost use Rattle.std.specs.Prelude.{◌≡◌, IfOk, IfErr, OnOk};
ghost use Rattle.gates.specs.declared.circuit.GateFault.{GateFault};
ghost use Rattle.gates.specs.Netlists.{IsOverfull, IsWithinLimit, IsExtensionOf};
ghost use Rattle.node_core.specs.Scans.{clause_view};
ghost use Rattle.node_circuits.specs.NodeWords.{words_view};
ghost use Rattle.query_formulas.specs.Literals.{bit_of, clause_literal, clause_literals, pair_literals};
ghost use Rattle.pair_circuits.specs.Views.{pair_view, clauses_view};

use crate::pair::{WordPair, clause_words};
use clause_core::Lit;
use gates::{Circuit, FALSE, GateFault};
use node_circuits::encode;
use node_core::ClauseNodes;
use std::alloc::Global;

// The bit of a word of BOOL: its lowest, FALSE where there is none.
fn bit(words: &[Vec<Lit>], number: usize) -> Lit
    ensures { result ≡ bit_of (words_view words.now) number }
{
    match words.get(number) {
        None => FALSE,
        Some(word) => match word.as_slice().first() {
            None => FALSE,
            Some(lit) => *lit,
        },
    }
}

/// A literal, and the words that a clause started with, handed back.
#[derive(Drop)]
struct Held {
    lit: Lit,
    starts: Vec<Vec<Lit>>,
}

// Whether a clause holds on its start words.
fn clause_literal(
    alloc: Global,
    circuit: &mut Circuit,
    clause: &ClauseNodes,
    starts: Vec<Vec<Lit>>,
) -> Result<Held, GateFault>
    ensures lit { IfOk result (λ h. h.lit ≡ (clause_literal (words_view starts.items) (clause_view clause.now) circuit.old).lit) }
    ensures starts { IfOk result (λ h. words_view h.starts.items ≡ words_view starts.items) }
    ensures net { OnOk result (circuit.new ≡ (clause_literal (words_view starts.items) (clause_view clause.now) circuit.old).net) }
    ensures fits { OnOk result (IsWithinLimit circuit.new) }
    ensures too_many { IfErr result (λ fault. fault ≡ GateFault.TooMany → IsOverfull (clause_literal (words_view starts.items) (clause_view clause.now) circuit.old).net) }
    ensures extends { IsExtensionOf circuit.old circuit.new }
{
    let count = starts.len();
    let mut words = encode(alloc, circuit, clause.nodes.as_slice(), starts)?;
    let value = bit(words.as_slice(), clause.value);
    let fault = bit(words.as_slice(), clause.fault);
    let lit = circuit.and(value, fault.negated())?;
    words.truncate(count);
    Ok(Held { lit, starts: words })
}

// For each clause whether it holds on its start words.
fn clause_literals(
    alloc: Global,
    circuit: &mut Circuit,
    clauses: &[ClauseNodes],
    starts: Vec<Vec<Lit>>,
) -> Result<Vec<Lit>, GateFault>
    ensures lits { IfOk result (λ l. l.items ≡ (clause_literals (words_view starts.items) (clauses_view clauses.now) circuit.old).lits) }
    ensures net { OnOk result (circuit.new ≡ (clause_literals (words_view starts.items) (clauses_view clauses.now) circuit.old).net) }
    ensures fits { OnOk result (IsWithinLimit circuit.new) }
    ensures too_many { IfErr result (λ fault. fault ≡ GateFault.TooMany → IsOverfull (clause_literals (words_view starts.items) (clauses_view clauses.now) circuit.old).net) }
    ensures extends { IsExtensionOf circuit.old circuit.new }
{
    let mut lits = Vec::new(alloc);
    let mut starts = starts;
    for clause in clauses {
        let held = clause_literal(alloc, circuit, clause, starts)?;
        let Ok(()) = lits.push(held.lit) else {
            return Err(GateFault::Memory);
        };
        starts = held.starts;
    }
    circuit.count();
    Ok(lits)
}

/// For each clause whether it holds on a pair.
pub(crate) fn pair_literals(
    alloc: Global,
    circuit: &mut Circuit,
    clauses: &[ClauseNodes],
    pair: &WordPair,
) -> Result<Vec<Lit>, GateFault>
    ensures lits { IfOk result (λ l. l.items ≡ (pair_literals (pair_view pair.now) (clauses_view clauses.now) circuit.old).lits) }
    ensures net { OnOk result (circuit.new ≡ (pair_literals (pair_view pair.now) (clauses_view clauses.now) circuit.old).net) }
    ensures fits { OnOk result (IsWithinLimit circuit.new) }
    ensures too_many { IfErr result (λ fault. fault ≡ GateFault.TooMany → IsOverfull (pair_literals (pair_view pair.now) (clauses_view clauses.now) circuit.old).net) }
    ensures extends { IsExtensionOf circuit.old circuit.new }
{
    let Ok(starts) = clause_words(alloc, pair) else {
        return Err(GateFault::Memory);
    };
    clause_literals(alloc, circuit, clauses, starts)
}
