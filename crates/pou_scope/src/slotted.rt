// The variables of a POU, and what is known of their names.
ghost use Rattle.std.specs.Prelude.{◌≡◌, is_some};
ghost use Rattle.source_tree.specs.SyntaxView.{name_view};
ghost use Rattle.naming.specs.DeclarationUses.{variable_number};
ghost use Rattle.naming.specs.Scopes.{variable_named, is_fault, is_doubled};
ghost use Rattle.naming.specs.ScopeView.{variables_view};
ghost use Rattle.naming.specs.Slots.{slot_among};
ghost use Rattle.naming.specs.Table.{Holds};

use crate::slots::{Slots, is_fault, slot_at};
use naming::{Declared, number_by};
use source_tree::Name;

/// The variables of a POU, and their slots.
#[derive(Clone, Copy)]
pub struct Slotted<'a> {
    pub has_fault: bool,
    pub slots: &'a Slots,
    pub variables: &'a [Declared<'a>],
    ghost held: { Holds slots.now (slot_among has_fault (variables_view variables.now)) },
}

impl Slotted<'_> {
    ghost use Rattle.pou_scope.specs.SlottedView.{scope_slotted};

    /// The variable of a name that is declared once, by its number.
    pub fn number(&self, name: &Name) -> Option<usize>
        ensures { result ≡ variable_number (scope_slotted self.now) (name_view name.now).text }
    {
        number_by(slot_at(self.slots, name.text.as_str()))
    }

    /// Whether a name is declared twice.
    pub fn is_doubled(&self, name: &Name) -> bool
        ensures { result ≡ is_doubled (scope_slotted self.now) (name_view name.now).text }
    {
        match slot_at(self.slots, name.text.as_str()) {
            Some(slot) => slot.is_doubled,
            None => self.is_fault(name),
        }
    }

    /// Whether a name is that of a variable.
    pub fn has_variable(&self, name: &Name) -> bool
        ensures { result ≡ is_some (variable_named (name_view name.now).text (scope_slotted self.now).variables) }
    {
        slot_at(self.slots, name.text.as_str()).is_some()
    }

    /// Whether a name is that of FAULT, in a PROGRAM.
    pub fn is_fault(&self, name: &Name) -> bool
        ensures { result ≡ is_fault (scope_slotted self.now).has_fault (name_view name.now).text }
    {
        is_fault(self.has_fault, name.text.as_str())
    }
}
