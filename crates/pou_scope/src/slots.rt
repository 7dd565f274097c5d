// The names of a POU, each with the first variable of that name.
ghost use Rattle.std.specs.Prelude.{◌≡◌, ◌||◌, [], IfOk, is_some, if◌then◌else◌};
ghost use Rattle.std.specs.HashMap.{get_by_text};
ghost use Rattle.source_tree.specs.SyntaxView.{name_view};
ghost use Rattle.naming.specs.Broken.{twice, variables_twice};
ghost use Rattle.rules.specs.Judgements.{ok};
ghost use Rattle.rules.specs.Outcomes.{outcome_of};
ghost use Rattle.naming.specs.Scopes.{is_fault};
ghost use Rattle.naming.specs.ScopeView.{variable_view, variables_view};
ghost use Rattle.naming.specs.Slots.{slot_among, entered};
ghost use Rattle.naming.specs.Table.{Holds};

use file_scope::twice;
use indexmap::IndexMap;
use naming::{Declared, Slot};
use rules::Outcome;
use source_tree::Name;
use std::alloc::{AllocError, Global};

/// The slots of a POU, by name.
pub type Slots = IndexMap<String, Slot>;

/// Whether a text is that of FAULT, where a POU has it.
pub fn is_fault(has_fault: bool, text: &str) -> bool
    ensures { result ≡ is_fault has_fault text.now }
{
    has_fault && text == "FAULT"
}

// The slot of a name once a variable is declared by it.
fn entered(has_fault: bool, variable: &Declared<'_>, number: usize, known: Option<Slot>) -> Slot
    ensures { result ≡ entered has_fault number (variable_view variable.now) known }
{
    if let Some(slot) = known {
        return Slot {
            is_doubled: true,
            ..slot
        };
    }
    Slot {
        number,
        is_doubled: is_fault(has_fault, variable.name.text.as_str()),
    }
}

// N1 at a name that is known, or FAULT.
fn declared_twice(has_fault: bool, known: Option<Slot>, name: &Name) -> Outcome
    ensures { let n = name_view name.now in result ≡ outcome_of (if is_fault has_fault n.text || is_some known then twice n else ok) }
{
    if is_fault(has_fault, name.text.as_str()) || known.is_some() {
        return twice(name);
    }
    Outcome::ok()
}

/// The slot of a name.
pub fn slot_at(slots: &Slots, text: &str) -> Option<Slot>
    ensures { result ≡ get_by_text slots.now text.now }
{
    slots.get(text).copied()
}

/// The slots of a POU's variables, and whether each name is declared once.
#[tactic(auto, using(rules::proofs::Outcomes::both_ok, rules::proofs::Outcomes::ok_both))]
pub fn slots(
    alloc: Global,
    has_fault: bool,
    variables: &[Declared<'_>],
) -> Result<(Slots, Outcome), AllocError>
    ensures held { IfOk result (λ r. Holds r.0 (slot_among has_fault (variables_view variables.now))) }
    ensures once { IfOk result (λ r. r.1 ≡ outcome_of (variables_twice has_fault [] (variables_view variables.now))) }
{
    let mut slots = IndexMap::new(alloc);
    let mut outcome = Outcome::ok();
    for (place, variable) in variables.iter().enumerate() {
        let name = variable.name;
        let known = slot_at(&slots, name.text.as_str());
        outcome = outcome.and(declared_twice(has_fault, known, name));
        let slot = entered(has_fault, variable, place + 1, known);
        slots.insert(name.text.clone()?, slot)?;
    }
    Ok((slots, outcome))
}
