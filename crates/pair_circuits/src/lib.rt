// The circuits of a pair of programs under a relation, and the pieces of which the formula of a query is made.
// - `breaks`: scans from the start: what lies outside of its range, and what the ENV and RELATE clauses say there
// - `clauses`: the circuit of a clause, over the words that it starts with
// - `consequences`: the pair behind a scan, and the literals that are asked of it
// - `formula`: the clauses of a query: gates up to a count, and literals alone
// - `free`: words of variables, one for each cell
// - `initial`: the words of the values that cells begin with
// - `loading`: words put into the cells that INPUT lines name
// - `members`: the literals of the candidates of a set
// - `outside`: whether words lie outside of the ranges of their cells
// - `pair`: the words of both programs
// - `parts`: what the circuits of a pair are made from
// - `premises`: the literals that hold before a row is loaded
// - `product`: the literals of one scan from any pair
// - `rows`: a row of words loaded, and the ENV clauses on that
// - `scan`: one scan of a row of words, from a pair
// - `scans`: the words that cells hold behind the scan of one program
// - `shapes`: what circuits have to know of cells and INPUT lines
#![tactic(auto)]

mod breaks;
mod clauses;
mod consequences;
mod formula;
mod free;
mod initial;
mod loading;
mod members;
mod outside;
mod pair;
mod parts;
mod premises;
mod product;
mod rows;
mod scan;
mod scans;
mod shapes;

pub use breaks::{Breaks, ScanLits, breaks_circuit};
pub use formula::{add_negative_units, add_some_fails, add_units, gates_formula};
pub use members::member_lits;
pub use pair::WordPair;
pub use parts::{PairParts, pair_parts};
pub use product::{Product, ProductLits, product_circuit};
