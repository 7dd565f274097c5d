// Data types.
ghost use Rattle.std.specs.Prelude.{◌≡◌};
ghost use Rattle.plc_types.specs.DataTypes.{carrier, is_same_type, is_integer_type};

use crate::elementary::Elementary;

/// A data type (IEC 61131-3, 2.3): an elementary one; an enumeration, by its number among the types that its file
/// declares, from 0; or one whose declaration breaks a rule, which no cell of a program has.
#[derive(Clone, Copy)]
pub enum DataType {
    Elementary(Elementary),
    Enumeration(usize),
    Unknown,
}

impl DataType {
    /// The elementary type whose numbers its values are: an enumeration's are of 8 bits.
    pub fn carrier(self) -> Elementary
        ensures { result ≡ carrier self }
    {
        match self {
            DataType::Elementary(kind) => kind,
            DataType::Enumeration(_) | DataType::Unknown => Elementary::Usint,
        }
    }

    /// Whether two data types of one file are the same. One that is unknown is like none.
    pub fn is_same(self, other: DataType) -> bool
        ensures { result ≡ is_same_type self other }
    {
        match (self, other) {
            (DataType::Elementary(kind), DataType::Elementary(other)) => kind == other,
            (DataType::Enumeration(number), DataType::Enumeration(other)) => number == other,
            _ => false,
        }
    }

    /// Whether it is one of the integer types.
    pub fn is_integer(self) -> bool
        ensures { result ≡ is_integer_type self }
    {
        match self {
            DataType::Elementary(kind) => kind.is_integer(),
            DataType::Enumeration(_) | DataType::Unknown => false,
        }
    }
}
