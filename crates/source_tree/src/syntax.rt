// Trees of a text, as they print its tokens. A number beside a part is the place of the part's first token, or
// of its operator, in bytes from 0. Operators of one level, the arms of an IF and statements are lists, so that
// a long text is no deep tree.
ghost use Rattle.std.specs.Prelude.{◌≡◌, IfOk};
ghost use Rattle.source_tree.specs.SyntaxView.{name_view};

use plc_types::{Elementary, Operator, UnaryOperator};
use std::alloc::{AllocError, Global};

/// A name, in upper case, and its place.
#[derive(Drop)]
pub struct Name {
    pub text: String,
    pub at: usize,
}

impl Name {
    /// The same name.
    pub fn copy(&self, alloc: Global) -> Result<Name, AllocError>
        ensures { IfOk result (λ n. name_view n ≡ name_view self.now) }
    {
        let text = String::from_str(alloc, self.text.as_str())?;
        Ok(Name { text, at: self.at })
    }
}

/// A name, and the names behind points.
#[derive(Drop)]
pub struct Path {
    pub first: Name,
    pub members: Vec<Name>,
}

/// A literal (IEC 61131-3, 2.2.1): a number or a truth value, with its type before it or without. A number
/// behind a type may have a minus sign, whose place is `minus`.
#[derive(Clone, Copy)]
pub enum Literal {
    Number {
        value: u64,
        at: usize,
    },
    Truth {
        value: bool,
        at: usize,
    },
    TypedNumber {
        kind: Elementary,
        at: usize,
        minus: Option<usize>,
        value: u64,
        value_at: usize,
    },
    TypedTruth {
        kind: Elementary,
        at: usize,
        value: bool,
        value_at: usize,
    },
}

/// An expression (IEC 61131-3, 3.3.1): a literal; a variable; `type#value`; an expression in parentheses; a
/// unary operator and its operand; operators of one level, joined from left to right; or a call of a function, with
/// the place of its parenthesis and its arguments.
#[derive(Drop)]
#[cycle(expr)]
pub enum Expr {
    Literal(Literal),
    Path(Path),
    Enumerator(Name, Name),
    Paren(usize, Box<Expr>),
    Unary(UnaryOperator, usize, Box<Expr>),
    Chain(Box<Expr>, Vec<Link>),
    Call(Name, usize, Vec<Argument>),
}

/// An operator, its place, and what stands to its right.
#[derive(Drop)]
#[cycle(expr)]
pub struct Link {
    pub operator: Operator,
    pub at: usize,
    pub right: Expr,
}

/// An argument of a call (IEC 61131-3, 2.5.1.1): by place, or by name. All of a call are of one form.
#[derive(Drop)]
#[cycle(expr)]
pub struct Argument {
    pub name: Option<Name>,
    pub value: Expr,
}

/// What stands in the parentheses of a block's call (IEC 61131-3, 2.5.2.1): the value of an input, `x := e`, or the target
/// that an output is copied to, `y => v`.
#[derive(Drop)]
pub enum Connection {
    Input(Name, Expr),
    Output(Name, Path),
}

/// A statement (IEC 61131-3, 3.3.2). A call of a block has the name of the instance, the place of its parenthesis, and its
/// connections; an IF an arm for IF and for each ELSIF, and what stands behind ELSE; a CASE its selector, its entries, and what
/// stands behind ELSE; a FOR its values and its body; an EXIT its place.
#[derive(Drop)]
#[cycle(stmt)]
pub enum Stmt {
    Empty,
    Assign(Path, Expr),
    Call(Name, usize, Vec<Connection>),
    If(Vec<Arm>, Option<Vec<Stmt>>),
    Case(Expr, Vec<Entry>, Option<Vec<Stmt>>),
    For(Box<Iteration>, Vec<Stmt>),
    Exit(usize),
    Return,
}

/// A condition, and the statements behind its THEN.
#[derive(Drop)]
#[cycle(stmt)]
pub struct Arm {
    pub condition: Expr,
    pub body: Vec<Stmt>,
}

/// A label of a CASE: a constant, or a range from one to another.
#[derive(Drop)]
pub struct Label {
    pub low: Expr,
    pub high: Option<Expr>,
}

/// The labels of a CASE's entry, and the statements behind them.
#[derive(Drop)]
#[cycle(stmt)]
pub struct Entry {
    pub labels: Vec<Label>,
    pub body: Vec<Stmt>,
}

/// What stands between FOR and DO: the control variable, its first value, the one that is not passed, and the
/// step behind BY. `at` is the place of FOR.
#[derive(Drop)]
pub struct Iteration {
    pub at: usize,
    pub control: Name,
    pub first: Expr,
    pub last: Expr,
    pub step: Option<Expr>,
}

/// The bounds of a subrange, and the place of the parenthesis before them.
#[derive(Drop)]
pub struct Bounds {
    pub at: usize,
    pub low: Expr,
    pub high: Expr,
}

/// A type where a variable is declared (IEC 61131-3, 2.3): an elementary one, a subrange of one, or one by name.
#[derive(Drop)]
pub enum TypeName {
    Elementary(Elementary, usize),
    Subrange(Elementary, usize, Box<Bounds>),
    Named(Name),
}

/// What a declared type is (IEC 61131-3, 2.3.3): a type that is spelled as that of a variable, or an enumeration, with the place
/// of its parenthesis and the names of its values, of which there is at least one.
#[derive(Drop)]
pub enum Specification {
    Type(TypeName),
    Enumeration(usize, Name, Vec<Name>),
}

/// A type by its name, and what it is.
#[derive(Drop)]
pub struct TypeDeclaration {
    pub name: Name,
    pub specification: Specification,
}

/// Variables of one type, and the value that they begin with (IEC 61131-3, 2.4.3).
#[derive(Drop)]
pub struct Declaration {
    pub first: Name,
    pub others: Vec<Name>,
    pub kind: TypeName,
    pub initial: Option<Expr>,
}

/// What variables are for: VAR_INPUT, VAR_OUTPUT, VAR, VAR_TEMP or VAR CONSTANT.
#[derive(Clone, Copy)]
pub enum Section {
    Input,
    Output,
    Local,
    Temporary,
    Constant,
}

/// A list of declarations, from VAR or another such word to END_VAR.
#[derive(Drop)]
pub struct Variables {
    pub section: Section,
    pub declarations: Vec<Declaration>,
}

/// Parentheses behind the name of an action in a step, by the place of the first; a word may stand in them, which is the
/// qualifier of the association (IEC 61131-3, table 45).
#[derive(Drop)]
pub struct Brackets {
    pub at: usize,
    pub word: Option<Name>,
}

/// An action that is associated with a step, by its name (IEC 61131-3, 2.6.4.2).
#[derive(Drop)]
pub struct StepAction {
    pub action: Name,
    pub brackets: Option<Brackets>,
}

/// A step (IEC 61131-3, 2.6.2): the place of INITIAL_STEP or STEP, which of them it is, its name, and its actions.
#[derive(Drop)]
pub struct ChartStep {
    pub at: usize,
    pub is_initial: bool,
    pub name: Name,
    pub actions: Vec<StepAction>,
}

/// The steps before or behind a transition: one; or in parentheses, by the place of the first, a first and others.
#[derive(Drop)]
pub enum Steps {
    One(Name),
    Several(usize, Name, Vec<Name>),
}

/// `(PRIORITY := number)` behind TRANSITION: the places of the parenthesis and of the word, and the number with its own.
#[derive(Clone, Copy)]
pub struct Priority {
    pub at: usize,
    pub word_at: usize,
    pub value: u64,
    pub value_at: usize,
}

/// A transition (IEC 61131-3, 2.6.3): the place of TRANSITION, its name and its priority, where it has them, the steps before
/// and behind it, and its condition.
#[derive(Drop)]
pub struct ChartTransition {
    pub at: usize,
    pub name: Option<Name>,
    pub priority: Option<Priority>,
    pub from: Steps,
    pub to: Steps,
    pub condition: Expr,
}

/// An action (IEC 61131-3, 2.6.4.1): the place of ACTION, its name, and its statements.
#[derive(Drop)]
pub struct ChartAction {
    pub at: usize,
    pub name: Name,
    pub body: Vec<Stmt>,
}

/// A part of a chart.
#[derive(Drop)]
pub enum ChartPart {
    Step(ChartStep),
    Transition(Box<ChartTransition>),
    Action(ChartAction),
}

/// A sequential function chart (IEC 61131-3, 2.6): its parts in the order of the text, of which there is at least one.
#[derive(Drop)]
pub struct Chart {
    pub parts: Vec<ChartPart>,
}

/// What a POU does: statements, or a chart.
#[derive(Drop)]
pub enum Body {
    Statements(Vec<Stmt>),
    Chart(Chart),
}

/// What a program organization unit is (IEC 61131-3, 2.5): a FUNCTION, with the type of its result, which is no subrange that
/// is spelled out; a FUNCTION_BLOCK; or a PROGRAM.
#[derive(Drop)]
pub enum PouType {
    Function(TypeName),
    FunctionBlock,
    Program,
}

/// A program organization unit, or POU (IEC 61131-3, 2.5).
#[derive(Drop)]
pub struct Pou {
    pub pou_type: PouType,
    pub name: Name,
    pub variables: Vec<Variables>,
    pub body: Body,
}

/// What a file declares in one place: types, from TYPE to END_TYPE, or a POU.
#[derive(Drop)]
pub enum Item {
    Types(Vec<TypeDeclaration>),
    Pou(Pou),
}

/// All that a text declares, in its order.
#[derive(Drop)]
pub struct SourceFile {
    pub items: Vec<Item>,
}
