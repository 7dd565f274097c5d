// The gates of a circuit as a text: a line for each gate, and a line for each word.
use clause_core::{Gate, Lit};
use gates::Circuit;
use std::alloc::{AllocError, Global};

/// The printed gates of a circuit, and behind them the words. A literal is the number of its variable, with a minus where it is negative.
pub fn print_gates(
    alloc: Global,
    circuit: &Circuit,
    words: &[Vec<Lit>],
) -> Result<String, AllocError> {
    let mut text = String::new(alloc);
    let mut variable = u64::from(circuit.first());
    for place in 0..circuit.count() {
        text.push_str(format!(in alloc; "{variable}")?.as_str())?;
        print_gate(alloc, circuit.gate(place), &mut text)?;
        text.push_str("\n")?;
        variable = variable.wrapping_add(1);
    }
    for word in words {
        text.push_str("word")?;
        for lit in word {
            print_lit(alloc, *lit, &mut text)?;
        }
        text.push_str("\n")?;
    }
    Ok(text)
}

fn print_gate(alloc: Global, gate: Gate, text: &mut String) -> Result<(), AllocError> {
    match gate {
        Gate::And(a, b) => {
            text.push_str(" AND")?;
            print_lit(alloc, a, text)?;
            print_lit(alloc, b, text)
        }
        Gate::Xor(a, b) => {
            text.push_str(" XOR")?;
            print_lit(alloc, a, text)?;
            print_lit(alloc, b, text)
        }
        Gate::Mux(c, a, b) => {
            text.push_str(" MUX")?;
            print_lit(alloc, c, text)?;
            print_lit(alloc, a, text)?;
            print_lit(alloc, b, text)
        }
    }
}

fn print_lit(alloc: Global, lit: Lit, text: &mut String) -> Result<(), AllocError> {
    let sign = if lit.negative { "-" } else { "" };
    let variable = lit.variable;
    text.push_str(format!(in alloc; " {sign}{variable}")?.as_str())
}
