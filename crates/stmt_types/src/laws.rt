// Laws of FORs.
ghost use Rattle.std.specs.Prelude.{◌≤◌, ◌<◌, ℤ};
ghost use Rattle.typing.specs.Constants.{turn_count};
ghost use Rattle.typing.specs.Turns.{AreAllTurns, AreTooMany};

/// How many turns a FOR has: those that its test lets begin, where they are 4,096 at most.
pub fn turns_are_counted()
    ensures counted { (first last step : ℤ) → turn_count first last step ≤ 4096 → AreAllTurns (turn_count first last step) first last step }
    ensures too_many { (first last step : ℤ) → 4096 < turn_count first last step → AreTooMany first last step }
{}
