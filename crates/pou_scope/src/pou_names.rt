// The names of a POU, and what is known of each of its variables.
ghost use Rattle.std.specs.Prelude.{◌≡◌, ◌-◌, [], map, option_map, IfOk};
ghost use Rattle.std.specs.List.{slice_get};
ghost use Rattle.source_tree.specs.SyntaxView.{name_view, pou_type_view, pou_view, file_view};
ghost use Rattle.naming.specs.FileScope.{is_program};
ghost use Rattle.rules.specs.Outcomes.{outcome_of};
ghost use Rattle.naming.specs.Broken.{variables_twice};
ghost use Rattle.call_order.specs.Uses.{graph_of, HasCircles};
ghost use Rattle.naming.specs.DeclarationUses.{variable_uses, is_circular_variable};
ghost use Rattle.naming.specs.Scopes.{scope_with, variables_in_pou, is_fault, is_doubled};
ghost use Rattle.naming.specs.ScopeView.{variables_view, seen_view};
ghost use Rattle.naming.specs.Slots.{slot_among};
ghost use Rattle.naming.specs.Table.{Holds};
ghost use Rattle.pou_scope.specs.AllSeen.{seen_in};

use crate::declared::declared_variables;
use crate::in_file::all_seen;
use crate::slots::{Slots, is_fault, slot_at, slots};
use crate::variable_uses::variable_circles;
use call_order::uses_in_circle;
use file_scope::FileScope;
use naming::{Declared, Slot, number_by};
use rules::Outcome;
use source_tree::{Name, Pou, PouType};
use std::alloc::{AllocError, Global};
use use_numbers::{UseNumbers, numbered};

/// A POU, whether it has FAULT, its variables, their slots by name, whether each is declared once, and for each those that it uses in
/// a circle.
#[derive(Drop)]
pub struct NamesOfPou<'a> {
    pub pou: &'a Pou,
    pub has_fault: bool,
    pub variables: Vec<Declared<'a>>,
    pub slots: Slots,
    pub once: Outcome,
    circles: Vec<Vec<usize>>,
    ghost held: { Holds slots (slot_among has_fault (variables_view variables.items)) },
    ghost judged: { once ≡ outcome_of (variables_twice has_fault [] (variables_view variables.items)) },
    ghost circular: { HasCircles (variable_uses (scope_with has_fault (variables_view variables.items))) (graph_of circles.items) },
}

// Whether a POU is a PROGRAM.
fn is_program(pou_type: &PouType) -> bool
    ensures { result ≡ is_program (pou_type_view pou_type.now) }
{
    matches!(pou_type, PouType::Program)
}

/// The names of a POU of a file.
pub fn names_of_pou<'a>(
    alloc: Global,
    file: &FileScope<'_>,
    pou: &'a Pou,
) -> Result<NamesOfPou<'a>, AllocError>
    ensures pou { IfOk result (λ names. pou_view names.pou.now ≡ pou_view pou.now) }
    ensures fault { IfOk result (λ names. names.has_fault ≡ is_program (pou_view pou.now).pou_type) }
    ensures variables { IfOk result (λ names. variables_view names.variables.items ≡ variables_in_pou (pou_view pou.now)) }
    ensures seen { IfOk result (λ names. map seen_view names.variables.items ≡ seen_in (file_view file.now.types.names.file.now) (pou_view pou.now)) }
{
    let has_fault = is_program(&pou.pou_type);
    let spelled = declared_variables(alloc, pou)?;
    let (slots, once) = slots(alloc, has_fault, &spelled)?;
    let circles = variable_circles(alloc, has_fault, &slots, &spelled)?;
    let variables = all_seen(alloc, file, has_fault, &slots, &spelled)?;
    Ok(NamesOfPou {
        pou,
        has_fault,
        variables,
        slots,
        once,
        circles,
    })
}

impl<'f> NamesOfPou<'f> {
    ghost use Rattle.naming.specs.ScopeView.{seen_if};
    ghost use Rattle.pou_scope.specs.NamesView.{scope_named, seen_by};
    ghost use Rattle.use_numbers.specs.UseNumbers.{NotesUse};

    /// Whether a name is declared twice. Keeps the number of its slot.
    pub fn is_doubled(&self, numbers: &mut UseNumbers, name: &Name) -> bool
        ensures { result ≡ is_doubled (scope_named self.now) (name_view name.now).text }
    {
        match numbered(&self.slots, name.text.as_str()) {
            Some((number, slot)) => {
                numbers.keep(name.at, number);
                slot.is_doubled
            }
            None => self.is_fault(name),
        }
    }

    /// Whether a name is that of FAULT, in a PROGRAM.
    pub fn is_fault(&self, name: &Name) -> bool
        ensures { result ≡ is_fault (scope_named self.now).has_fault (name_view name.now).text }
    {
        is_fault(self.has_fault, name.text.as_str())
    }

    // The variable of a slot.
    fn seen_at(&self, slot: Slot) -> Option<&Declared<'f>>
        ensures { seen_if result ≡ option_map seen_view (slice_get self.now.variables.items (slot.number - 1)) }
    {
        self.variables.get(slot.number.saturating_sub(1))
    }

    /// The variable of a name.
    pub fn seen(&self, name: &Name) -> Option<&Declared<'f>>
        ensures { seen_if result ≡ seen_by self.now (name_view name.now).text }
    {
        self.seen_at(slot_at(&self.slots, name.text.as_str())?)
    }

    /// The variable that a name uses. Keeps the number of the use.
    pub fn used(&self, numbers: &mut UseNumbers, name: &Name) -> Option<&Declared<'f>>
        ensures seen { seen_if result ≡ seen_by self.now (name_view name.now).text }
        ensures numbers { NotesUse self.now.slots (name_view name.now) numbers.old numbers.new }
    {
        let (number, slot) = numbered(&self.slots, name.text.as_str())?;
        numbers.keep(name.at, number);
        self.seen_at(slot)
    }

    /// Whether the declaration of a number uses the variable of a name in a circle.
    pub fn is_circular(&self, user: usize, name: &Name) -> bool
        ensures { result ≡ is_circular_variable (scope_named self.now) user (name_view name.now) }
    {
        match number_by(slot_at(&self.slots, name.text.as_str())) {
            Some(used) => uses_in_circle(&self.circles, user, used),
            None => false,
        }
    }
}
