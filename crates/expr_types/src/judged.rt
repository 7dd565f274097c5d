// Expressions that were judged.
ghost use Rattle.std.specs.Prelude.{◌≡◌};
ghost use Rattle.typing.specs.Typing.{or_else, or_dint};

use plc_types::DataType;
use rules::Outcome;
use synthesized_types::or_dint;

/// What judging an expression tells, and its synthesized type, where it has one.
#[derive(Clone, Copy)]
pub struct JudgedExpr {
    pub outcome: Outcome,
    pub synthesized: Option<DataType>,
}

impl JudgedExpr {
    /// The type of the expression where a type is expected, or none.
    pub fn kind(self, expected: Option<DataType>) -> DataType
        ensures { result ≡ or_dint (or_else self.synthesized expected) }
    {
        or_dint(self.synthesized.or(expected))
    }
}

/// What judging the arguments of a call tells, and whether those that were judged are of the types that are expected.
#[derive(Clone, Copy)]
pub(crate) struct JudgedArguments {
    pub outcome: Outcome,
    pub fit: bool,
}
