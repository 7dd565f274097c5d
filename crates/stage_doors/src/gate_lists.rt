// The gates of one scan: its start words are free bits, those of FAULT first.
use case_files::{CaseFault, malformed};
use clause_core::Lit;
use gates::{Circuit, GateFault};
use node_circuits::encode;
use node_core::Scan;
use program_printing::print_gates;
use program_tree::Program;
use std::alloc::{AllocError, Global};

// How many free bits and gates a circuit of a case may have.
const FREE: u32 = 1_000_000;

const GATES: u32 = 16_777_216;

/// The printed gates of a scan, and the words of the cells behind it.
pub fn gates_of(alloc: Global, program: &Program, scan: &Scan) -> Result<String, CaseFault> {
    let (words, free) = free_words(alloc, program)?;
    if free > FREE {
        return Err(malformed(alloc, "the program has too many cells", ""));
    }
    let mut circuit = Circuit::new(alloc, free, GATES);
    let words = match encode(alloc, &mut circuit, &scan.nodes, words) {
        Ok(words) => words,
        Err(GateFault::TooMany) => return Err(malformed(alloc, "there are too many gates", "")),
        Err(GateFault::Memory) => return Err(CaseFault::Memory),
    };
    let mut last = Vec::new(alloc);
    for number in &scan.last {
        last.push(word_at(alloc, &words, *number)?)?;
    }
    Ok(print_gates(alloc, &circuit, &last)?)
}

// A word of free bits for each cell, and how many bits they have.
fn free_words(alloc: Global, program: &Program) -> Result<(Vec<Vec<Lit>>, u32), AllocError> {
    let mut words = Vec::new(alloc);
    let mut free = 0u32;
    for cell in &program.cells {
        let width = cell.kind.carrier().width();
        words.push(free_word(alloc, free, width)?)?;
        free = free.wrapping_add(width);
    }
    Ok((words, free))
}

// A word of that many free bits behind the first `free` ones.
fn free_word(alloc: Global, free: u32, width: u32) -> Result<Vec<Lit>, AllocError> {
    let mut word = Vec::new(alloc);
    for bit in 0..width {
        word.push(Lit {
            variable: free.wrapping_add(bit).wrapping_add(2),
            negative: false,
        })?;
    }
    Ok(word)
}

fn word_at(alloc: Global, words: &[Vec<Lit>], number: usize) -> Result<Vec<Lit>, AllocError> {
    let mut copy = Vec::new(alloc);
    if let Some(word) = words.get(number) {
        for lit in word {
            copy.push(*lit)?;
        }
    }
    Ok(copy)
}
