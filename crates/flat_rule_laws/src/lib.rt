// The law of the rules of flat programs: the flat form of a well-typed program keeps them.
#![tactic(auto)]

mod rule_laws;

pub use rule_laws::flat_form_keeps_rules;
