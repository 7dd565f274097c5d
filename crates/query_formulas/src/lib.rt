// The circuits of a pair of programs under a relation, over what they are made from, the formula of each query, and what its solutions stand
// for: definitions.
#![tactic(auto)]

mod shapes;

pub use shapes::CellShape;
