ghost use Rattle.std.specs.Prelude.{◌≡◌, ℕ, ◌+◌, ◌-◌, ◌*◌, ◌<◌, ◌^◌, map, IfOk, IfErr, OnOk};
ghost use Rattle.gates.specs.declared.circuit.GateFault.{GateFault};
ghost use Rattle.gates.specs.Netlists.{IsOverfull, IsWithinLimit, IsExtensionOf};
ghost use Rattle.query_formulas.specs.CellShapes.{bits_of};
ghost use Rattle.pair_circuits.specs.Views.{pair_view, parts_view, breaks_view, scan_lits_view};
ghost use Rattle.query_formulas.specs.Breaks.{Breaks, scans_from, breaks_bits, breaks_of, start_words};

use crate::free::{count_bits, free_words};
use crate::initial::initial_words;
use crate::pair::WordPair;
use crate::parts::PairParts;
use crate::scan::scan_from;
use clause_core::Lit;
use gates::{Circuit, GateFault};
use std::alloc::{AllocError, Global};

/// Literals of a scan from the start: its numbers, which of them lie outside of their ranges, the ENV clauses, and how many gates
/// there are up to there; the RELATE clauses behind it, and how many gates there are up to there.
#[derive(Drop)]
pub struct ScanLits {
    pub inputs: Vec<Vec<Lit>>,
    pub outside: Vec<Lit>,
    pub environment: Vec<Lit>,
    pub begun: usize,
    pub relates: Vec<Lit>,
    pub ended: usize,
}

/// The circuit of scans from the start, with the literals of each.
#[derive(Drop)]
pub struct Breaks {
    pub scans: Vec<ScanLits>,
    pub circuit: Circuit,
}

// The words of the first values of both programs.
fn first_words(alloc: Global, parts: &PairParts) -> Result<WordPair, AllocError>
    ensures { IfOk result (λ p. pair_view p ≡ start_words (parts_view parts.now)) }
{
    let old = initial_words(alloc, parts.old.as_slice())?;
    let new = initial_words(alloc, parts.new.as_slice())?;
    Ok(WordPair { old, new })
}

// So many scans from a pair, the free bits of the first being the variables from one on.
fn scans_from(
    alloc: Global,
    circuit: &mut Circuit,
    parts: &PairParts,
    count: u64,
    first: u32,
    pair: WordPair,
) -> Result<Vec<ScanLits>, GateFault>
    requires few { first + count * bits_of parts.now.lines.items < 2 ^ 31 + 2 }
    ensures scans { IfOk result (λ s. map scan_lits_view s.items ≡ (scans_from (parts_view parts.now) count first (pair_view pair) circuit.old).scans) }
    ensures net { OnOk result (circuit.new ≡ (scans_from (parts_view parts.now) count first (pair_view pair) circuit.old).net) }
    ensures fits { OnOk result (IsWithinLimit circuit.new) }
    ensures too_many { IfErr result (λ fault. fault ≡ GateFault.TooMany → IsOverfull (scans_from (parts_view parts.now) count first (pair_view pair) circuit.old).net) }
    ensures extends { IsExtensionOf circuit.old circuit.new }
{
    let mut scans = Vec::new(alloc);
    let mut pair = pair;
    let mut next = first;
    for _scan in 0..count {
        let Ok(inputs) = free_words(alloc, next, parts.lines.as_slice()) else {
            return Err(GateFault::Memory);
        };
        let made = scan_from(alloc, circuit, parts, inputs, pair)?;
        let Ok(()) = scans.push(made.lits) else {
            return Err(GateFault::Memory);
        };
        pair = made.pair;
        next += count_bits(parts.lines.as_slice());
    }
    circuit.count();
    Ok(scans)
}

/// The circuit of DEPTH scans from the start, of at most so many gates.
pub fn breaks_circuit(alloc: Global, parts: &PairParts, limit: u32) -> Result<Breaks, GateFault>
    requires few { breaks_bits (parts_view parts.now) + limit < 2 ^ 31 - 1 }
    ensures breaks { IfOk result (λ b. breaks_view b ≡ breaks_of (parts_view parts.now) limit) }
    ensures fits { IfOk result (λ b. IsWithinLimit (breaks_view b).net) }
    ensures too_many { IfErr result (λ fault. fault ≡ GateFault.TooMany → IsOverfull (breaks_of (parts_view parts.now) limit).net) }
{
    let Ok(pair) = first_words(alloc, parts) else {
        return Err(GateFault::Memory);
    };
    let free = free_bits(parts);
    let mut circuit = Circuit::new(alloc, free, limit);
    let scans = scans_from(alloc, &mut circuit, parts, parts.depth, 2, pair)?;
    Ok(Breaks { scans, circuit })
}

// How many free bits there are.
fn free_bits(parts: &PairParts) -> u32
    requires { breaks_bits (parts_view parts.now) < 2 ^ 31 }
    ensures { result ≡ breaks_bits (parts_view parts.now) }
{
    let mut free = 0;
    for _scan in 0..parts.depth {
        free += count_bits(parts.lines.as_slice());
    }
    free
}
