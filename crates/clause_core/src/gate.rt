use crate::literal::Lit;

/// A gate of a Boolean circuit: it has a literal's value for each value of its operands.
#[derive(Clone, Copy)]
pub enum Gate {
    /// Both operands.
    And(Lit, Lit),
    /// Exactly one of the operands.
    Xor(Lit, Lit),
    /// The second operand where the first is true, else the third.
    Mux(Lit, Lit, Lit),
}
