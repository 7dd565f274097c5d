// When a program is typed: one judgement over its expressions, its statements and its POUs.
#![tactic(auto)]
