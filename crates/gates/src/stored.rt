// Gates as a circuit keeps them: in 16 bytes each.
ghost use Rattle.std.specs.Prelude.{◌≡◌};
ghost use Rattle.gates.specs.Stored.{gate_of, stored_of, of_operands};

use clause_core::{Gate, Lit};

/// The form of a gate.
#[derive(Clone, Copy, PartialEq, Eq, Hash)]
pub enum Form {
    And,
    Xor,
    Mux,
}

/// A gate, its variables and signs apart; a gate of two operands has no third.
#[derive(Clone, Copy, PartialEq, Eq, Hash)]
pub struct StoredGate {
    pub form: Form,
    pub negative_one: bool,
    pub negative_two: bool,
    pub negative_three: bool,
    pub one: u32,
    pub two: u32,
    pub three: u32,
}

// A gate of three operands.
#[inline]
fn of_operands(form: Form, a: Lit, b: Lit, c: Lit) -> StoredGate
    ensures { result ≡ of_operands form a b c }
{
    StoredGate {
        form,
        negative_one: a.negative,
        negative_two: b.negative,
        negative_three: c.negative,
        one: a.variable,
        two: b.variable,
        three: c.variable,
    }
}

/// The gate as it is kept.
#[inline]
pub fn stored(gate: Gate) -> StoredGate
    ensures { result ≡ stored_of gate }
{
    let none = Lit {
        variable: 0,
        negative: false,
    };
    match gate {
        Gate::And(a, b) => of_operands(Form::And, a, b, none),
        Gate::Xor(a, b) => of_operands(Form::Xor, a, b, none),
        Gate::Mux(c, a, b) => of_operands(Form::Mux, c, a, b),
    }
}

/// The gate that is kept so.
#[inline]
pub fn gate_of(stored: StoredGate) -> Gate
    ensures { result ≡ gate_of stored }
{
    let one = Lit {
        variable: stored.one,
        negative: stored.negative_one,
    };
    let two = Lit {
        variable: stored.two,
        negative: stored.negative_two,
    };
    match stored.form {
        Form::And => Gate::And(one, two),
        Form::Xor => Gate::Xor(one, two),
        Form::Mux => {
            let three = Lit {
                variable: stored.three,
                negative: stored.negative_three,
            };
            Gate::Mux(one, two, three)
        }
    }
}
