// Why texts are not compared.
ghost use Rattle.std.specs.Prelude.{◌≡◌};
ghost use Rattle.comparison_files.specs.Faults.{program_fault, relation_fault};

use command_answers::Source;
use node_end::AcceptFault;
use rules::{Fault, Refusal, Rule};

/// Why texts are not compared: a file breaks a rule, what is made of one is too large, or memory was wanting.
#[derive(Drop)]
pub enum CompareFault {
    Refused(Source, Refusal),
    TooLarge(Source, Rule),
    Memory,
}

/// What a fault of a program's text is.
pub(crate) fn program_fault(source: Source, fault: AcceptFault) -> CompareFault
    ensures { result ≡ program_fault source fault }
{
    match fault {
        AcceptFault::Refused(refusal) => CompareFault::Refused(source, refusal),
        AcceptFault::TooManyNodes => CompareFault::TooLarge(source, Rule::TooManyNodes),
        AcceptFault::Memory => CompareFault::Memory,
    }
}

/// What a fault of REL's text is.
pub(crate) fn relation_fault(fault: Fault) -> CompareFault
    ensures { result ≡ relation_fault fault }
{
    match fault {
        Fault::Refused(refusal) => CompareFault::Refused(Source::Relation, refusal),
        Fault::Memory => CompareFault::Memory,
    }
}
