// How statements end.
ghost use Rattle.std.specs.Prelude.{◌≡◌};
ghost use Rattle.meaning.specs.Values.{State};
ghost use Rattle.meaning.specs.Effects.{behind_body};
ghost use Rattle.interpreter.specs.Outcomes.{effect_with};

/// Whether what stands behind a statement goes on, or an EXIT or a RETURN leaves the list.
#[derive(Clone, Copy)]
pub enum Outcome {
    On,
    Exit,
    Return,
}

/// Behind a body of its own all goes on where a RETURN ended it.
#[inline(always)]
pub fn behind_body(outcome: Outcome) -> Outcome
    ensures { (state : State) → effect_with result state ≡ behind_body (effect_with outcome state) }
{
    match outcome {
        Outcome::Return => Outcome::On,
        Outcome::On => Outcome::On,
        Outcome::Exit => Outcome::Exit,
    }
}
