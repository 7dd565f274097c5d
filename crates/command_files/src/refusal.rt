// Why the texts of a command are refused.
ghost use Rattle.std.specs.Prelude.{◌≡◌};
ghost use Rattle.command_files.specs.Refused.{fault_of};

use command_answers::Source;
use rules::{Fault, Refusal, Rule};
use std::alloc::AllocError;
use thiserror::Error;

/// Why texts are not accepted.
#[derive(Debug, Drop, Error)]
pub enum AcceptError {
    #[error("a file breaks a rule")]
    Refused(Source, Refusal),
    #[error("memory was wanting")]
    Memory,
}

impl From<AllocError> for AcceptError {
    ghost use Rattle.command_files.specs.declared.refusal.AcceptError.TheVariants.{Memory};

    ghost from_gives = { λ _ e. e ≡ Memory };

    fn from(_: AllocError) -> Self {
        AcceptError::Memory
    }
}

/// What a fault of the text of a file is.
pub fn fault_of(source: Source, fault: Fault) -> AcceptError
    ensures { result ≡ fault_of source fault }
{
    match fault {
        Fault::Refused(refusal) => AcceptError::Refused(source, refusal),
        Fault::Memory => AcceptError::Memory,
    }
}

/// A rule that a file breaks as a whole.
pub fn refused(source: Source, rule: Rule) -> AcceptError
    ensures { result ≡ AcceptError.Refused source (record { rule = rule; at = 0 }) }
{
    AcceptError::Refused(source, Refusal { rule, at: 0 })
}
