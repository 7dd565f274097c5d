// Laws of the grammar: what its readers read is what a tree prints, each printed tree is read back, and trees nest as their tokens do.
#![tactic(auto)]
