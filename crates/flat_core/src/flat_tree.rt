// Flat statements.
use program_tree::TypedExpr;

/// A flat statement. A place counts the cells and behind them the scratch cells. An `If` is a chain of nested ones: what an
/// arm leaves to do where its condition is not TRUE is the arms behind it, with what runs before their conditions. Thousands of
/// arms are so no deeper than one.
#[derive(Drop)]
#[cycle(flat_stmt)]
pub enum FlatStmt {
    Set(usize, TypedExpr),
    If(Vec<FlatArm>, Vec<FlatStmt>),
}

/// A condition, the statements that run before it is asked for, and those that run where it is the first that is TRUE.
#[derive(Drop)]
#[cycle(flat_stmt)]
pub struct FlatArm {
    pub before: Vec<FlatStmt>,
    pub condition: TypedExpr,
    pub body: Vec<FlatStmt>,
}
