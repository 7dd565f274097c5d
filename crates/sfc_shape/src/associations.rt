// The associations of a chart's actions with its steps.
ghost use Rattle.std.specs.Prelude.{◌≡◌, ℕ, ◌++◌, [], ◌∷◌, List, Some, IfOk, OnOk, if◌then◌else◌};
ghost use Rattle.std.specs.Str.{bytes_eq};
ghost use Rattle.source_tree.specs.SyntaxView.{step_action_view, step_actions_view};
ghost use Rattle.naming.specs.ChartWords.{qualifier_of};
ghost use Rattle.sfc_shape.specs.Shapes.{association_with, associated, associated_from};
ghost use Rattle.sfc_shape.specs.ShapeView.{seen_steps, listed};
ghost use Rattle.use_numbers.specs.Entries.{text_at};

use indexmap::IndexMap;
use naming::qualifier;
use program_tree::{Association, Qualifier};
use source_tree::{ChartAction, ChartStep, StepAction};
use std::alloc::{AllocError, Global};
use use_numbers::{UseNumbers, entry_at, entry_by};

/// The associations of actions, by the action's name.
pub type Associations = IndexMap<String, Vec<Association>>;

// What the word of an association says, where it is a qualifier.
fn qualifier_of(action: &StepAction) -> Option<Qualifier>
    ensures { result ≡ qualifier_of (step_action_view action.now) }
{
    let Some(brackets) = &action.brackets else {
        return Some(Qualifier::NonStored);
    };
    match &brackets.word {
        Some(word) => qualifier(word.text.as_str()),
        None => Some(Qualifier::NonStored),
    }
}

// Enters an action, with no association where it has none yet.
fn enter(alloc: Global, associations: &mut Associations, name: &str) -> Result<(), AllocError>
    ensures { OnOk result ((text : List ℕ) → listed associations.new text ≡ listed associations.old text) }
{
    let name = String::from_str(alloc, name)?;
    associations.entry(name)?.or_insert(Vec::new(alloc));
    Ok(())
}

// The entries of actions, in their order, with no associations.
fn entered(alloc: Global, actions: &[&ChartAction]) -> Result<Associations, AllocError>
    ensures { IfOk result (λ m. (text : List ℕ) → listed m text ≡ []) }
{
    let mut associations = IndexMap::new(alloc);
    for action in actions {
        enter(alloc, &mut associations, action.name.text.as_str())?;
    }
    Ok(associations)
}

// Adds an association at the entry of a number.
fn keep_at(
    associations: &mut Associations,
    number: usize,
    name: &str,
    association: Association,
) -> Result<(), AllocError>
    requires { text_at associations.old number ≡ Some name.now }
    ensures { OnOk result ((text : List ℕ) → listed associations.new text ≡ listed associations.old text ++ (if bytes_eq name.now text then association ∷ [] else [])) }
{
    let (_, found) = associations.pair_mut(number);
    found.push(association)?;
    Ok(())
}

// Adds an association of the action of a name.
fn keep_by_name(
    alloc: Global,
    associations: &mut Associations,
    name: &str,
    association: Association,
) -> Result<(), AllocError>
    ensures { OnOk result ((text : List ℕ) → listed associations.new text ≡ listed associations.old text ++ (if bytes_eq name.now text then association ∷ [] else [])) }
{
    let name = String::from_str(alloc, name)?;
    let found = associations.entry(name)?.or_insert(Vec::new(alloc));
    found.push(association)?;
    Ok(())
}

// Adds an association of the action of a name, of whose entry this is the number; where there is none, or another's, the name is
// looked up.
fn keep(
    alloc: Global,
    associations: &mut Associations,
    number: Option<usize>,
    name: &str,
    association: Association,
) -> Result<(), AllocError>
    ensures { OnOk result ((text : List ℕ) → listed associations.new text ≡ listed associations.old text ++ (if bytes_eq name.now text then association ∷ [] else [])) }
{
    match number {
        Some(number) if entry_at(associations, number, name).is_some() => {
            keep_at(associations, number, name, association)
        }
        _ => keep_by_name(alloc, associations, name, association),
    }
}

// Adds an association of an action with a step.
fn associate(
    alloc: Global,
    uses: &UseNumbers,
    associations: &mut Associations,
    step: usize,
    action: &StepAction,
) -> Result<(), AllocError>
    ensures { let a = step_action_view action.now in OnOk result ((text : List ℕ) → listed associations.new text ≡ listed associations.old text ++ (if bytes_eq a.action.text text then association_with step (qualifier_of a) else [])) }
{
    if let Some(qualifier) = qualifier_of(action) {
        let association = Association { qualifier, step };
        let name = &action.action;
        let number = uses.get(name.at);
        keep(alloc, associations, number, name.text.as_str(), association)?;
    }
    Ok(())
}

// Adds the associations of a step's actions.
fn associate_step(
    alloc: Global,
    uses: &UseNumbers,
    associations: &mut Associations,
    step: usize,
    actions: &[StepAction],
) -> Result<(), AllocError>
    ensures { OnOk result ((text : List ℕ) → listed associations.new text ≡ listed associations.old text ++ associated text step (step_actions_view actions.now)) }
{
    for action in actions {
        associate(alloc, uses, associations, step, action)?;
    }
    Ok(())
}

/// The associations of actions with steps, which are counted from 0. The entry of an action is found by the number that is kept of its
/// use.
pub fn associations(
    alloc: Global,
    uses: &UseNumbers,
    actions: &[&ChartAction],
    steps: &[&ChartStep],
) -> Result<Associations, AllocError>
    ensures { IfOk result (λ m. (text : List ℕ) → listed m text ≡ associated_from text 0 (seen_steps steps.now)) }
{
    let mut associations = entered(alloc, actions)?;
    for (number, step) in steps.iter().enumerate() {
        associate_step(alloc, uses, &mut associations, number, &step.actions)?;
    }
    Ok(associations)
}

/// The associations of the action of a name, of whose entry this is the number.
pub fn associations_by(
    alloc: Global,
    associations: &Associations,
    number: usize,
    name: &str,
) -> Result<Vec<Association>, AllocError>
    ensures { IfOk result (λ v. v.items ≡ listed associations.now name.now) }
{
    let mut list = Vec::new(alloc);
    if let Some(found) = entry_by(associations, Some(number), name) {
        for association in found {
            list.push(*association)?;
        }
    }
    Ok(list)
}
