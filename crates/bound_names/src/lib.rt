// What the body of a POU uses where its names break no rule: by its judgements of names, which are whole, nothing but names that stand for something, and FUNCTIONs and blocks that
// are among those that the POU uses.
#![tactic(auto)]
