// Operators.

/// A binary operator (IEC 61131-3, 3.3.1). `&` is `And`.
#[derive(Clone, Copy, PartialEq, Eq)]
pub enum Operator {
    Or,
    Xor,
    And,
    Equal,
    NotEqual,
    Less,
    Greater,
    LessEqual,
    GreaterEqual,
    Plus,
    Minus,
    Times,
    Divide,
    Mod,
}

/// A unary operator (IEC 61131-3, table 52).
#[derive(Clone, Copy)]
pub enum UnaryOperator {
    Minus,
    Not,
}
