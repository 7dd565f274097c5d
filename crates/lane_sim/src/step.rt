ghost use Rattle.std.specs.Prelude.{◌≡◌, ℕ, ◌<◌, ◌^◌, Bool, length};
ghost use Rattle.std.specs.List.{All};
ghost use Rattle.clause_core.specs.Satisfaction.{signed};
ghost use Rattle.lane_sim.specs.Lanes.{lane, assignment_of};
ghost use Rattle.lane_sim.specs.Choices.{EachOf, choice_true};
ghost use Rattle.lane_sim.specs.Steps.{target_of, is_turned, step_true, stepped, IsStepWithin};

use crate::choice::Choice;
use crate::lanes::{choose_word, signed_word};
use std::simd::u64x4;

/// Writes a word: that at the place `yes`, turned or not, where the one at `condition` is set, else the one at `no`. All steps have one
/// form, and 16 bytes: `code` is twice the place that is written, and one more where `yes` is turned.
#[derive(Clone, Copy)]
pub struct Step {
    condition: u32,
    yes: u32,
    no: u32,
    code: u32,
}

impl Step {
    #[inline(always)]
    fn target(self) -> usize
        ensures { result ≡ target_of self }
    {
        (self.code / 2) as usize
    }

    #[inline(always)]
    fn is_turned(self) -> bool
        ensures { result ≡ is_turned self }
    {
        self.code % 2 == 1
    }
}

// The word that a step writes.
#[inline(always)]
fn step_word(words: &[u64x4], step: Step) -> u64x4
    requires { IsStepWithin (length words.now) step }
    ensures { (j : ℕ) → j < 256 → lane result j ≡ step_true (assignment_of j words.now) step }
{
    let yes = signed_word(words[step.yes as usize], step.is_turned());
    choose_word(words[step.condition as usize], yes, words[step.no as usize])
}

/// Writes the words of steps, one after the other.
pub(crate) fn put_steps(steps: &[Step], words: &mut [u64x4])
    requires { All (IsStepWithin (length words.old)) steps.now }
    ensures { (j : ℕ) → j < 256 → assignment_of j words.new ≡ stepped steps.now (assignment_of j words.old) }
{
    for step in steps {
        words[step.target()] = step_word(words, *step);
    }
}

/// The step that writes a choice between literals over words, or its negative, and whether it is that.
pub(crate) fn step_of(choice: Choice, word: u32) -> (Step, bool)
    requires { word < 2 ^ 31 }
    ensures value { (w : ℕ → Bool) → signed result.1 (step_true w result.0) ≡ choice_true w choice }
    ensures target { target_of result.0 ≡ word }
    ensures within { (words : ℕ) → EachOf (λ l. l.variable < words) choice → word < words → IsStepWithin words result.0 }
{
    let (yes, no) = if choice.condition.negative {
        (choice.no, choice.yes)
    } else {
        (choice.yes, choice.no)
    };
    let is_turned = yes.negative != no.negative;
    let step = Step {
        condition: choice.condition.variable,
        yes: yes.variable,
        no: no.variable,
        code: 2 * word + u32::from(is_turned),
    };
    (step, no.negative)
}
