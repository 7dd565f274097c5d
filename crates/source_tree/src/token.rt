// Tokens of a text.
use plc_types::{Elementary, Operator};

/// A reserved word or a sign of which trees keep neither the spelling nor the place.
#[derive(Clone, Copy, PartialEq, Eq)]
pub enum Mark {
    Close,
    Comma,
    Semicolon,
    Colon,
    Assign,
    Arrow,
    Point,
    Range,
    Hash,
    Type,
    EndType,
    Program,
    EndProgram,
    Function,
    EndFunction,
    FunctionBlock,
    EndFunctionBlock,
    Var,
    VarInput,
    VarOutput,
    VarTemp,
    Constant,
    EndVar,
    If,
    Then,
    Elsif,
    Else,
    EndIf,
    Case,
    EndCase,
    Of,
    To,
    By,
    Do,
    EndFor,
    Return,
    From,
    EndStep,
    EndTransition,
    EndAction,
}

/// A word that begins a part of a chart (IEC 61131-3, 2.6): INITIAL_STEP, STEP, TRANSITION or ACTION.
#[derive(Clone, Copy, PartialEq, Eq)]
pub enum PartWord {
    InitialStep,
    Step,
    Transition,
    Action,
}

/// What a token is: a word, a number or a sign (IEC 61131-3, 2.1).
#[derive(Clone, Copy)]
pub enum TokenClass {
    Word,
    Number,
    Sign,
}

/// What a token is for the grammar (IEC 61131-3, annexes B and C): a name; a number, by its value; a truth
/// value; an elementary type; NOT; a binary operator, `-` among them; `(`; FOR; EXIT; a word that begins a part of a chart; another
/// word or sign that is let in; or a word that is left out.
#[derive(Clone, Copy, PartialEq, Eq)]
pub enum Terminal {
    Name,
    Number(u64),
    Truth(bool),
    Type(Elementary),
    Not,
    Operator(Operator),
    Open,
    For,
    Exit,
    Part(PartWord),
    Mark(Mark),
    LeftOut,
}

/// A token: its class, its slice of the text, what it is for the grammar, and its place in bytes from 0.
#[derive(Clone, Copy)]
pub struct Tok<'a> {
    pub class: TokenClass,
    pub slice: &'a str,
    pub terminal: Terminal,
    pub at: usize,
}
