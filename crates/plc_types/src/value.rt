// Values.

/// A number of the language: what a cell, an input, a literal, a bound or a label holds. Those of 64 bits go from -2^63 to 2^64 - 1.
pub type Value = i128;
