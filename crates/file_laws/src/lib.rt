// Laws of the grammar for charts, POUs and files.
#![tactic(auto)]
