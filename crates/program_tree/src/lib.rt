// Programs whose names are cells and whose operators have types, as trees and as data that definitions speak of, and what the places
// of their cells take.
#![tactic(auto)]

mod cells;
mod scratch;
mod typed;

pub use scratch::Scratch;
pub use typed::{
    Association, Called, Cell, CellType, ChartCells, Frame, Operand, Part, Program, Qualifier,
    StepCells, Turns, TypedAction, TypedArm, TypedEntry, TypedExpr, TypedLabel, TypedStmt,
    TypedTransition,
};
