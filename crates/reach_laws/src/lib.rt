// The POUs that are marked as reached are those that the PROGRAM reaches.
#![tactic(auto)]
