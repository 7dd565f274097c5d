// Tokens and trees: what a text spells, and what a tree prints.
#![tactic(auto)]

mod syntax;
mod token;

pub use syntax::{
    Argument, Arm, Body, Bounds, Brackets, Chart, ChartAction, ChartPart, ChartStep,
    ChartTransition, Connection, Declaration, Entry, Expr, Item, Iteration, Label, Link, Literal,
    Name, Path, Pou, PouType, Priority, Section, SourceFile, Specification, StepAction, Steps,
    Stmt, TypeDeclaration, TypeName, Variables,
};
pub use token::{Mark, PartWord, Terminal, Tok, TokenClass};
