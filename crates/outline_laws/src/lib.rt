// The flat form of an outline has no more statements than that of its program: where the one is too long, so is the other.
#![tactic(auto)]
