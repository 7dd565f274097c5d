ghost use Rattle.std.specs.Prelude.{◌≡◌};
ghost use Rattle.lane_sim.specs.Choices.{choice_of};

use clause_core::{Gate, Lit};
use gates::FALSE;

/// `yes` where `condition` is true, else `no`.
#[derive(Clone, Copy)]
pub struct Choice {
    pub condition: Lit,
    pub yes: Lit,
    pub no: Lit,
}

/// The choice that a gate is.
pub(crate) fn choice_of(gate: Gate) -> Choice
    ensures { result ≡ choice_of gate }
{
    match gate {
        Gate::And(a, b) => Choice {
            condition: a,
            yes: b,
            no: FALSE,
        },
        Gate::Xor(a, b) => Choice {
            condition: a,
            yes: b.negated(),
            no: b,
        },
        Gate::Mux(c, a, b) => Choice {
            condition: c,
            yes: a,
            no: b,
        },
    }
}
