// How a run ends.
ghost use Rattle.std.specs.Prelude.{◌≡◌};
ghost use Rattle.command_answers.specs.Codes.{code_of};

/// How a run ends, by the line that it put last.
#[derive(Clone, Copy)]
pub enum Status {
    /// The programs are related after every scan.
    Related,
    /// After some scans they are not.
    Different,
    /// The candidates do not decide it, and no break is found in the scans that are searched.
    Open,
    /// No first row is allowed.
    Vacuous,
    /// A query took all the derivations that it may take.
    Spent,
    /// A finding passes all tests.
    Valid,
    /// A line of a finding fails a test.
    Invalid,
    /// All rows of the trace are allowed and leave related pairs.
    Replayed,
    /// A row leaves a pair that is not related.
    Unrelated,
    /// A row is not allowed.
    NotAllowed,
    /// The command line is none of those that there are.
    Usage,
    /// A file breaks a rule.
    Refused,
    /// A read of a file has failed.
    ReadFault,
    /// A write to a file or to the output has failed.
    WriteFault,
    /// Memory was wanting.
    Memory,
}

impl Status {
    /// The number that the process ends with.
    pub fn code(self) -> u8
        ensures { result ≡ code_of self }
    {
        match self {
            Status::Related | Status::Valid | Status::Replayed => 0,
            Status::Different | Status::Unrelated => 1,
            Status::Usage => 2,
            Status::Open => 3,
            Status::Spent => 4,
            Status::Vacuous => 5,
            Status::Refused => 6,
            Status::ReadFault => 7,
            Status::WriteFault => 8,
            Status::Memory => 9,
            Status::Invalid => 10,
            Status::NotAllowed => 11,
        }
    }
}
