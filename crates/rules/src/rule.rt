// The rules that a file may break, and refusals.
ghost use Rattle.std.specs.Prelude.{◌≡◌, codes};
ghost use Rattle.rules.specs.Rules.{name_of};

/// A rule that a program, a relation file, a trace or a finding may break, in the order in which passes test them and, in
/// a pass, in the order that decides at one place.
#[derive(Clone, Copy, Debug)]
pub enum Rule {
    /// M1: a file has more than 1,048,576 bytes. Its place is 0.
    TooLong,
    /// L1: a byte outside comments begins no token. Its place is the byte's.
    StrayByte,
    /// L2: a comment is not closed. Its place is where the comment begins.
    OpenComment,
    /// L5: a number has none of the forms. Its place is the number's.
    NumberForm,
    /// L3: a number is above 2^64 - 1. Its place is the number's.
    NumberSize,
    /// L4: a word has more than 64 characters. Its place is the word's.
    WordLength,
    /// X1: a word is left out of the language. Its place is the word's.
    LeftOutWord,
    /// G2: more than 64 parentheses and statements are open. Its place is that of the one that is too many.
    TooDeep,
    /// G1: no tree prints the tokens. Its place is the first token with which no file goes on, else the text's
    /// length.
    NoTree,
    /// R1: a line of a relation file stands out of order, or one is missing.
    LineOrder,
    /// R2: a number of a relation file is outside its limits. Its place is the number's.
    NumberLimits,
    /// R3: a name in a clause has neither `old.` nor `new.` before it. Its place is the name's.
    NoSide,
    /// N1: a name is declared twice in one scope. Its place is that of the second name.
    DeclaredTwice,
    /// N2: a name is unknown. Its place is the name's.
    UnknownName,
    /// N3: a type is declared in terms of itself, also through others. Its place is the type's name.
    InTermsOfItself,
    /// N4: a name stands where what it names cannot stand. Its place is the name's.
    WrongUse,
    /// N5: there is not exactly one PROGRAM. Its place is 0.
    NotOneProgram,
    /// C1: a chart has not exactly one initial step. Its place is that of the chart's first part.
    NotOneInitialStep,
    /// C2: a name before or behind a transition is no step of the chart. Its place is the name's.
    UnknownStep,
    /// C3: a name in a step is no action of the chart. Its place is the name's.
    UnknownAction,
    /// C4: a step stands twice before a transition, or behind it. Its place is that of the second name.
    StepTwice,
    /// C5: a word in an action's parentheses is no qualifier. Its place is the word's.
    UnknownQualifier,
    /// P1: paired inputs differ in type. Its place is the first name's.
    InputsDiffer,
    /// P2: an input is listed twice, or not at all.
    InputCount,
    /// Y1: an operator has operands of a wrong type, or a condition is not BOOL.
    OperandType,
    /// Y2: a value's type is not that of its target.
    ValueType,
    /// Y3: a literal is outside its type. Its place is the literal's.
    OutsideType,
    /// Y4: a target may not be assigned. Its place is the target's.
    NotAssignable,
    /// Y5: a call has a wrong number of arguments. Its place is the called name's.
    ArgumentCount,
    /// K1: a label of a CASE has a value of an earlier label. Its place is that of the label's first token.
    Overlap,
    /// F1: a bound or the step of a FOR is not constant. Its place is that of its first token.
    NotConstant,
    /// F2: the step of a FOR is 0. Its place is the FOR's.
    StepZero,
    /// F3: a FOR has more than 4,096 turns. Its place is the FOR's.
    TooManyTurns,
    /// F4: a value of a FOR's control variable is outside its type, the one that ends the FOR included. Its
    /// place is the FOR's.
    OutsideControl,
    /// F5: an EXIT outside a FOR. Its place is the word's.
    ExitOutsideFor,
    /// M3: an enumeration has more than 256 values. Its place is the type's name.
    TooManyValues,
    /// R4: a clause is not BOOL. Its place is its first token's.
    NotBool,
    /// M2: a program has more than 4,096 cells. Its place is 0.
    TooManyCells,
    /// M5: the flat form of a program has more than 200,000 statements. Its place is 0.
    TooManyStatements,
    /// M6: the scan of a program has more than 1,000,000 nodes. Its place is 0.
    TooManyNodes,
    /// M4: a relation has more than 4,096 candidates. Its place is 0.
    TooManyCandidates,
    /// M7: a circuit of a comparison has more than 16,777,216 gates. Its place is 0.
    TooManyGates,
    /// M8: a finding has more than 1,073,741,824 bytes. Its place is 0.
    FindingTooLong,
    /// J1: a trace is no JSON text of its shape. Its place is 0.
    NoTrace,
}

impl Rule {
    /// The rule's name, as it is printed.
    pub fn name(self) -> &'static str
        ensures { result.now ≡ name_of self }
    {
        match self {
            Rule::TooLong => "M1",
            Rule::StrayByte => "L1",
            Rule::OpenComment => "L2",
            Rule::NumberForm => "L5",
            Rule::NumberSize => "L3",
            Rule::WordLength => "L4",
            Rule::LeftOutWord => "X1",
            Rule::TooDeep => "G2",
            Rule::NoTree => "G1",
            Rule::LineOrder => "R1",
            Rule::NumberLimits => "R2",
            Rule::NoSide => "R3",
            Rule::DeclaredTwice => "N1",
            Rule::UnknownName => "N2",
            Rule::InTermsOfItself => "N3",
            Rule::WrongUse => "N4",
            Rule::NotOneProgram => "N5",
            Rule::NotOneInitialStep => "C1",
            Rule::UnknownStep => "C2",
            Rule::UnknownAction => "C3",
            Rule::StepTwice => "C4",
            Rule::UnknownQualifier => "C5",
            Rule::InputsDiffer => "P1",
            Rule::InputCount => "P2",
            Rule::OperandType => "Y1",
            Rule::ValueType => "Y2",
            Rule::OutsideType => "Y3",
            Rule::NotAssignable => "Y4",
            Rule::ArgumentCount => "Y5",
            Rule::Overlap => "K1",
            Rule::NotConstant => "F1",
            Rule::StepZero => "F2",
            Rule::TooManyTurns => "F3",
            Rule::OutsideControl => "F4",
            Rule::ExitOutsideFor => "F5",
            Rule::TooManyValues => "M3",
            Rule::NotBool => "R4",
            Rule::TooManyCells => "M2",
            Rule::TooManyStatements => "M5",
            Rule::TooManyNodes => "M6",
            Rule::TooManyCandidates => "M4",
            Rule::TooManyGates => "M7",
            Rule::FindingTooLong => "M8",
            Rule::NoTrace => "J1",
        }
    }
}

/// A rule that a file breaks, and the place where it does, in bytes from 0.
#[derive(Clone, Copy, Debug)]
pub struct Refusal {
    pub rule: Rule,
    pub at: usize,
}

impl Refusal {
    ghost use Rattle.rules.specs.Rules.{comes_before, earlier};
    ghost use Rattle.std.specs.Prelude.{◌≡◌, Some};

    /// Whether this refusal comes before another of the same pass: by place, then by the order of the rules.
    pub fn comes_before(self, other: Refusal) -> bool
        ensures { result ≡ comes_before self other }
    {
        self.at < other.at || self.at == other.at && (self.rule as u8) < (other.rule as u8)
    }

    /// The first of two refusals of one pass, where there is one.
    pub fn earlier(first: Option<Refusal>, second: Option<Refusal>) -> Option<Refusal>
        ensures { result ≡ earlier first second }
    {
        match (first, second) {
            (Some(a), Some(b)) => Some(if b.comes_before(a) { b } else { a }),
            (Some(a), None) => Some(a),
            (None, other) => other,
        }
    }
}
