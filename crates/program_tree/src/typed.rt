// Programs whose names are cells and whose operators have types.
use plc_types::{DataType, Elementary, Function, Operator, Range, UnaryOperator, Value};

/// An expression over the cells of a POU, each by its place. An operator has the type of its operands, and a call of a
/// standard function that of its result. A FUNCTION is called by its number among the POUs that the program may call, with the
/// values of all its inputs in declared order.
#[derive(Drop)]
#[cycle(typed_expr)]
pub enum TypedExpr {
    Number(Value),
    Cell(usize),
    Unary(UnaryOperator, Elementary, Box<TypedExpr>),
    Chain(Box<TypedExpr>, Vec<Operand>),
    CallStandard(Function, Elementary, Vec<TypedExpr>),
    CallFunction(usize, Vec<TypedExpr>),
}

/// An operator, the type of its operands, and what stands to its right.
#[derive(Drop)]
#[cycle(typed_expr)]
pub struct Operand {
    pub operator: Operator,
    pub kind: Elementary,
    pub right: TypedExpr,
}

/// How an action is associated with a step (IEC 61131-3, table 45): it is not stored, by N or without a word; set by S; reset by R;
/// runs once where the step becomes active, by P or P1; or once where it ceases to be, by P0.
#[derive(Clone, Copy)]
pub enum Qualifier {
    NonStored,
    Set,
    Reset,
    Pulse,
    FallingPulse,
}

/// An association of an action with a step, by the step's number in the chart, from 0 (IEC 61131-3, 2.6.4.3).
#[derive(Clone, Copy)]
pub struct Association {
    pub qualifier: Qualifier,
    pub step: usize,
}

/// The cells of a step: whether it is active, and whether it was where the run before this one started.
#[derive(Clone, Copy)]
pub struct StepCells {
    pub active: usize,
    pub before: usize,
}

/// A transition (IEC 61131-3, 2.6.3): the steps before and behind it, by their numbers, and its condition.
#[derive(Drop)]
pub struct TypedTransition {
    pub from: Vec<usize>,
    pub to: Vec<usize>,
    pub condition: TypedExpr,
}

/// A statement. A target is the place of its cell. A call of a block runs the body of a FUNCTION_BLOCK, by its number among the POUs that the
/// program may call, over the cells of an instance, which begin at a place. A chart is what a POU does whose body is one
/// (IEC 61131-3, 2.6): its steps and its actions in the order of the text, and its transitions in the order in which they fire. A
/// CASE has the elementary type whose numbers the values of its selector are. A body of its own is a list that a RETURN in it ends, and
/// nothing else: the statements of a POU or of an action.
#[derive(Drop)]
#[cycle(typed_stmt)]
pub enum TypedStmt {
    Assign(usize, TypedExpr),
    CallBlock { block: usize, offset: usize },
    If(Vec<TypedArm>, Vec<TypedStmt>),
    Case(Elementary, TypedExpr, Vec<TypedEntry>, Vec<TypedStmt>),
    For(Turns, Vec<TypedStmt>),
    Chart(Vec<StepCells>, Vec<TypedAction>, Vec<TypedTransition>),
    Exit,
    Return,
    Body(Vec<TypedStmt>),
}

/// An action of a chart (IEC 61131-3, 2.6.4): the cell of its latch, where some step sets or resets it; its associations in the order
/// of the text; and its statements.
#[derive(Drop)]
#[cycle(typed_stmt)]
pub struct TypedAction {
    pub latch: Option<usize>,
    pub associations: Vec<Association>,
    pub body: Vec<TypedStmt>,
}

/// A condition, and the statements that run where it is the first that is TRUE.
#[derive(Drop)]
#[cycle(typed_stmt)]
pub struct TypedArm {
    pub condition: TypedExpr,
    pub body: Vec<TypedStmt>,
}

/// The labels of an entry of a CASE, and the statements that run where it is the first that has the selector's value.
#[derive(Drop)]
#[cycle(typed_stmt)]
pub struct TypedEntry {
    pub labels: Vec<TypedLabel>,
    pub body: Vec<TypedStmt>,
}

/// The turns of a FOR: how many there are, the cell of the control variable, its first value, and what is added
/// to it behind each turn.
#[derive(Clone, Copy)]
pub struct Turns {
    pub count: u16,
    pub control: usize,
    pub first: Value,
    pub step: Value,
}

/// What part a cell plays in its program.
#[derive(Clone, Copy)]
pub enum Part {
    Fault,
    Input,
    Output,
    Local,
}

/// A label of a CASE (IEC 61131-3, 3.3.2.3): one value, or each value from one to another. A range of one value stays a range,
/// since its test compares twice.
#[derive(Clone, Copy)]
pub enum TypedLabel {
    Single(Value),
    Span(Range),
}

/// A cell: its path, the part that it plays, its type, its range, whether its type is a subrange, which is another than the
/// whole type even where it has the same range, and the value that the cell begins with.
#[derive(Drop)]
pub struct Cell {
    pub path: String,
    pub part: Part,
    pub kind: DataType,
    pub range: Range,
    pub is_subrange: bool,
    pub initial: Value,
}

/// The type of a cell that has no path: its data type, and whether it is a subrange of it.
#[derive(Clone, Copy)]
pub struct CellType {
    pub kind: DataType,
    pub is_subrange: bool,
}

/// The cells of a FUNCTION, which each call has anew: FAULT, what it answers, its inputs in declared order, and then its other
/// variables. Each has a type, a range and the value that it begins with.
#[derive(Drop)]
pub struct Frame {
    pub types: Vec<CellType>,
    pub ranges: Vec<Range>,
    pub start: Vec<Value>,
}

/// Where the cells of a chart's steps stand, one step behind the other, each with two cells: the place of the first, and how many
/// steps there are (IEC 61131-3, 2.6.2).
#[derive(Clone, Copy)]
pub struct ChartCells {
    pub first: usize,
    pub steps: usize,
}

/// A POU that may be called (IEC 61131-3, 2.5.1 and 2.5.2). A FUNCTION_BLOCK has a body over the cells of an instance, from place
/// 0 on, and a FUNCTION one over a frame of its own.
#[derive(Drop)]
pub enum Called {
    Block(Vec<TypedStmt>),
    Function(Frame, Vec<TypedStmt>),
}

/// A PROGRAM (IEC 61131-3, 2.5.3): its name; its cells, FAULT first and then the variables as declared, an instance of a block
/// giving its own cells in its place; its charts, those of its instances among them, in the order of their cells; the names of those of
/// its variables that are no cells, which are its constants and instances; its file's types, each by the names of its values, which
/// only an enumeration has; the POUs that it may call, each of which calls only those before it; and its body.
#[derive(Drop)]
pub struct Program {
    pub name: String,
    pub cells: Vec<Cell>,
    pub charts: Vec<ChartCells>,
    pub without_cell: Vec<String>,
    pub types: Vec<Vec<String>>,
    pub called: Vec<Called>,
    pub body: Vec<TypedStmt>,
}
