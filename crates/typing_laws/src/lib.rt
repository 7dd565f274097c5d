// Laws of the rules on types: judging a construct part by part, and what a typed program keeps.
#![tactic(auto)]
