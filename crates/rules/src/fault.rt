// Why a pass gives nothing.
use crate::rule::Refusal;
use std::alloc::{AllocError, AllocFailed};
use thiserror::Error;

/// Why a pass gives nothing: what it reads breaks a rule, or memory was wanting.
#[derive(Debug, Drop, Error)]
pub enum Fault {
    #[error("a rule is broken")]
    Refused(Refusal),
    #[error("memory was wanting")]
    Memory,
}

impl From<AllocError> for Fault {
    ghost use Rattle.std.specs.Prelude.{◌≡◌};
    ghost use Rattle.rules.specs.declared.fault.Fault.TheVariants.{Memory};

    ghost from_gives = { λ _ e. e ≡ Memory };

    fn from(_: AllocError) -> Self {
        Fault::Memory
    }
}

impl<T: Drop> From<AllocFailed<T>> for Fault {
    ghost use Rattle.std.specs.Prelude.{◌≡◌};
    ghost use Rattle.rules.specs.declared.fault.Fault.TheVariants.{Memory};

    ghost from_gives = { λ _ e. e ≡ Memory };

    fn from(_: AllocFailed<T>) -> Self {
        Fault::Memory
    }
}
