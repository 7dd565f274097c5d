// Why reading stopped.
use rules::{Fault, Refusal, Rule};
use std::alloc::{AllocError, AllocFailed};

/// Why reading stopped: no tree goes on at a place, in bytes from 0, or memory ran out.
#[derive(Drop)]
pub enum Stop {
    NoTree(usize),
    Memory,
}

impl From<AllocError> for Stop {
    ghost use Rattle.std.specs.Prelude.{◌≡◌};
    ghost use Rattle.grammar.specs.declared.fault.Stop.TheVariants.{Memory};

    ghost from_gives = { λ _ e. e ≡ Memory };

    fn from(_: AllocError) -> Self {
        Stop::Memory
    }
}

impl<T: Drop> From<AllocFailed<T>> for Stop {
    ghost use Rattle.std.specs.Prelude.{◌≡◌};
    ghost use Rattle.grammar.specs.declared.fault.Stop.TheVariants.{Memory};

    ghost from_gives = { λ _ e. e ≡ Memory };

    fn from(_: AllocFailed<T>) -> Self {
        Stop::Memory
    }
}

impl From<Stop> for Fault {
    ghost use Rattle.std.specs.Prelude.{◌≡◌};
    ghost use Rattle.grammar.specs.Faults.{fault_of};

    ghost from_gives = { λ stop fault. fault ≡ fault_of stop };

    fn from(stop: Stop) -> Self {
        match stop {
            Stop::NoTree(at) => Fault::Refused(Refusal {
                rule: Rule::NoTree,
                at,
            }),
            Stop::Memory => Fault::Memory,
        }
    }
}
