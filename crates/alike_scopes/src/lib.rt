// Two scopes that differ in the places of cells alone judge alike: what is whole over the one is whole over the other. The scopes of a POU are so, whatever sizes blocks have.
#![tactic(auto)]
