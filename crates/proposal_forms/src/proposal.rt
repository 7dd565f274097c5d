// What may be proposed.
use plc_types::Value;

/// How a BOOL cell is made of two others.
#[derive(Clone, Copy)]
pub enum Junction {
    And,
    Or,
    AndNot,
}

/// What is made of a cell and a number: the lesser of the two, the greater, the remainder or the quotient of the cell by the number.
#[derive(Clone, Copy)]
pub enum Shape {
    Least,
    Greatest,
    Remainder,
    Quotient,
}

/// A cell that has a value.
#[derive(Clone, Copy)]
pub struct HeldValue {
    pub cell: usize,
    pub value: Value,
}

/// What is said of cells where a guard holds.
#[derive(Clone, Copy)]
pub enum GuardedLine {
    /// Two cells have one value.
    Equal(usize, usize),
    /// A cell, and a multiple of another, give a constant.
    Sum {
        first: usize,
        second: usize,
        factor: Value,
        constant: Value,
    },
    /// A cell has this value.
    Has(HeldValue),
    /// A cell is at least so great.
    AtLeast(HeldValue),
    /// A cell is at most so great.
    AtMost(HeldValue),
}

/// A clause over cells by their numbers, OLD's from 0 on and NEW's behind them.
#[derive(Drop)]
pub enum Proposal {
    /// Two cells have one value.
    Equal(usize, usize),
    /// Of two BOOL cells exactly one is TRUE.
    Opposite(usize, usize),
    /// A BOOL cell is TRUE exactly where another cell has this value; or, negated, exactly where it has not.
    HasValue {
        flag: usize,
        cell: usize,
        value: Value,
        negated: bool,
    },
    /// A cell has a value exactly where another cell has this one.
    Together(HeldValue, HeldValue),
    /// A cell has a value exactly where one of others has its one; or, turned, another value exactly there.
    OneOf {
        held: HeldValue,
        parts: Vec<HeldValue>,
        is_turned: bool,
    },
    /// A BOOL cell is TRUE exactly where another cell is at least so great; or, negated, exactly where it is not.
    Reaches {
        flag: usize,
        cell: usize,
        bound: Value,
        negated: bool,
    },
    /// A BOOL cell is TRUE exactly where some of these bits of a word are 1; or, negated, exactly where none is.
    HasBit {
        flag: usize,
        cell: usize,
        mask: Value,
        negated: bool,
    },
    /// These bits of a word are 1, of those of a mask.
    Bits {
        cell: usize,
        mask: Value,
        value: Value,
    },
    /// What is made of a cell and a number, and a multiple of another cell, give a constant.
    Shaped {
        cell: usize,
        shape: Shape,
        number: Value,
        other: usize,
        factor: Value,
        constant: Value,
    },
    /// A cell is at least so much greater than another, or at most so much.
    Apart {
        cell: usize,
        other: usize,
        bound: Value,
        is_least: bool,
    },
    /// Where a cell has a value, or, turned, where it has another, a line holds; on how many pairs that was so.
    Guarded {
        guard: HeldValue,
        is_turned: bool,
        line: GuardedLine,
        seen: usize,
    },
    /// A sum of multiples of integer cells, the factors before the cells, is a constant.
    Sum {
        terms: Vec<(Value, usize)>,
        constant: Value,
    },
    /// The same of BOOL cells as 0 and 1.
    Count {
        terms: Vec<(Value, usize)>,
        constant: Value,
    },
    /// A BOOL cell is TRUE exactly where this is of two others.
    Joined {
        cell: usize,
        first: usize,
        second: usize,
        junction: Junction,
    },
    /// Not both of two BOOL cells are TRUE; on how many pairs each of them was.
    NotBoth {
        first: usize,
        second: usize,
        seen: (usize, usize),
    },
    /// A cell is at least so great; the least value that it was seen to have.
    AtLeast {
        cell: usize,
        bound: Value,
        seen: Value,
    },
    /// A cell is at most so great; the greatest value that it was seen to have.
    AtMost {
        cell: usize,
        bound: Value,
        seen: Value,
    },
}
