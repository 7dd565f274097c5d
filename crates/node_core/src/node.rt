// Nodes.
use plc_types::{Elementary, Operator, Range, Shift, UnaryOperator, Value};

/// One step of a scan in single assignment: it makes a word, of a type, from words made earlier, which it names by their
/// numbers. The kind of a node is the type of its operands, and that of a `Constant` is the type of its number. `Divide` and
/// `Mod` give 0 where the divisor is 0. `Mux` is `on` where the condition is TRUE, else `off`, and SEL is one. `Outside` tells whether a
/// value lies outside of the range of a subrange.
#[derive(Clone, Copy)]
pub enum Node {
    Constant {
        kind: Elementary,
        value: Value,
    },
    Unary {
        operator: UnaryOperator,
        kind: Elementary,
        operand: usize,
    },
    Binary {
        operator: Operator,
        kind: Elementary,
        left: usize,
        right: usize,
    },
    Convert {
        from: Elementary,
        to: Elementary,
        operand: usize,
    },
    Absolute {
        kind: Elementary,
        operand: usize,
    },
    Minimum {
        kind: Elementary,
        left: usize,
        right: usize,
    },
    Maximum {
        kind: Elementary,
        left: usize,
        right: usize,
    },
    Shift {
        shift: Shift,
        amount: u8,
        kind: Elementary,
        operand: usize,
    },
    IsZero {
        kind: Elementary,
        operand: usize,
    },
    Outside {
        kind: Elementary,
        range: Range,
        operand: usize,
    },
    Mux {
        kind: Elementary,
        condition: usize,
        on: usize,
        off: usize,
    },
}
