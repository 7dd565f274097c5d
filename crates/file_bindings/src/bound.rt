// A file whose names are bound.
ghost use Rattle.std.specs.Prelude.{◌≡◌, ◌<◌, [], Some, length, count_by, option_map};
ghost use Rattle.rules.specs.declared.rule.Refusal.{Refusal};
ghost use Rattle.source_tree.specs.SyntaxView.{file_view};
ghost use Rattle.file_bindings.specs.Bindings.{AreBindings, HaveBlocks};
ghost use Rattle.naming.specs.Broken.{is_program_pou};
ghost use Rattle.naming.specs.Circles.{IsBroken};
ghost use Rattle.naming.specs.FileScope.{pous_of};

use file_scope::{Table, end_at, standing_by_number};
use naming::{Declared, Slot, Standing};
use pou_scope::NamesOfPou;
use source_tree::{Item, Name, Pou, SourceFile, TypeDeclaration};
use use_numbers::{UseNumbers, value_by};

/// The names of each POU, the types, the numbers of all uses of names, the places of POUs among the items of a file, which POUs
/// each uses, their order, the number of the PROGRAM, the table of all names, and where types lead to.
#[derive(Drop)]
pub struct Bindings<'f> {
    pub names: Vec<NamesOfPou<'f>>,
    pub types: Vec<&'f TypeDeclaration>,
    pub numbers: UseNumbers,
    pub places: Vec<usize>,
    pub uses: Vec<Vec<usize>>,
    pub order: Vec<usize>,
    pub program: Option<usize>,
    pub table: Table,
    pub ends: Vec<usize>,
}

/// A file that breaks no rule on names, and all its names by what they stand for.
#[derive(Drop)]
pub struct Resolved<'f> {
    pub file: &'f SourceFile,
    bindings: Bindings<'f>,
    ghost unbroken: { (r : Refusal) → ¬ (IsBroken (file_view file.now) r) },
    ghost one: { count_by is_program_pou (pous_of (file_view file.now)) ≡ 1 },
    ghost bound: { AreBindings (file_view file.now) bindings },
}

// The number of the variable of a slot.
fn bound_by(slot: Option<Slot>) -> Option<usize>
    ensures { result ≡ option_map (λ s. s.number) slot }
{
    match slot {
        Some(slot) => Some(slot.number),
        None => None,
    }
}

// No variables.
fn no_variables<'a, 'f>() -> &'a [Declared<'f>]
    ensures { result.now ≡ [] }
{
    &[]
}

impl<'f> Resolved<'f> {
    ghost use Rattle.std.specs.Prelude.{option_and_then};
    ghost use Rattle.call_order.specs.Uses.{uses_at, order_of};
    ghost use Rattle.source_tree.specs.SyntaxView.{name_view, pou_view};
    ghost use Rattle.file_bindings.specs.Bound.{bound_named, program_number, variables_at};
    ghost use Rattle.naming.specs.Circles.{uses_of};
    ghost use Rattle.naming.specs.FileScope.{types_of, pou_at, standing};
    ghost use Rattle.naming.specs.Scopes.{scope_of, variables_in_pou};
    ghost use Rattle.naming.specs.ScopeView.{types_view, variables_view};
    ghost use Rattle.naming.specs.Slots.{slot_named};
    ghost use Rattle.naming.specs.Types.{end_of};

    /// A file that breaks no rule on names and has one PROGRAM, with its bindings.
    pub fn new(file: &'f SourceFile, bindings: Bindings<'f>) -> Resolved<'f>
        requires unbroken { (r : Refusal) → ¬ (IsBroken (file_view file.now) r) }
        requires one { count_by is_program_pou (pous_of (file_view file.now)) ≡ 1 }
        requires bound { AreBindings (file_view file.now) bindings }
        ensures { file_view result.file.now ≡ file_view file.now }
    {
        Resolved { file, bindings }
    }

    /// How many POUs the file has.
    pub fn pou_count(&self) -> usize
        ensures { result ≡ length (pous_of (file_view self.now.file.now)) }
    {
        self.bindings.places.as_slice().len()
    }

    /// The number of the one PROGRAM.
    pub fn program(&self) -> usize
        ensures { program_number (file_view self.now.file.now) ≡ Some result }
    {
        match self.bindings.program {
            Some(number) => number,
            None => unreachable!(),
        }
    }

    /// The POU of a number, in constant time.
    pub fn pou(&self, number: usize) -> &Pou
        requires { number < length (pous_of (file_view self.now.file.now)) }
        ensures { pou_at (file_view self.now.file.now) number ≡ Some (pou_view result.now) }
    {
        let places = self.bindings.places.as_slice();
        let items = self.file.items.as_slice();
        match &items[places[number]] {
            Item::Pou(pou) => pou,
            Item::Types(_) => unreachable!(),
        }
    }

    /// The POUs in an order in which each stands behind those that it uses.
    pub fn order(&self) -> &[usize]
        ensures { result.now ≡ order_of (uses_of (file_view self.now.file.now)) }
    {
        &self.bindings.order
    }

    /// The POUs that the POU of a number uses, in constant time.
    pub fn uses(&self, number: usize) -> &[usize]
        ensures { result.now ≡ uses_at (uses_of (file_view self.now.file.now)) number }
    {
        match self.bindings.uses.as_slice().get(number) {
            None => &[],
            Some(uses) => uses,
        }
    }

    /// The numbers of all uses of names.
    pub fn numbers(&self) -> &UseNumbers {
        &self.bindings.numbers
    }

    // The slot of a name that is used, in the POU of a number.
    fn slot_of_use(&self, pou: usize, name: &Name) -> Option<Slot>
        ensures { result ≡ option_and_then (λ p. slot_named (scope_of p) (name_view name.now).text) (pou_at (file_view self.now.file.now) pou) }
    {
        let number = self.bindings.numbers.get(name.at);
        match self.bindings.names.as_slice().get(pou) {
            Some(names) => value_by(&names.slots, number, name.text.as_str()),
            None => None,
        }
    }

    /// The variable that a name is bound to in the POU of a number, by its number in declared order, from 1; it is found by the number that
    /// is kept of the use.
    pub fn bound(&self, pou: usize, name: &Name) -> Option<usize>
        ensures { result ≡ option_and_then (λ p. bound_named (variables_in_pou p) (name_view name.now).text) (pou_at (file_view self.now.file.now) pou) }
    {
        bound_by(self.slot_of_use(pou, name))
    }

    /// The variables of the POU of a number in declared order, each instance with its block, in constant time.
    pub fn variables(&self, number: usize) -> &[Declared<'f>]
        ensures variables { ∥ variables_view result.now ≡ variables_at (file_view self.now.file.now) number ∥₁ }
        ensures blocks { HaveBlocks (file_view self.now.file.now) result.now }
    {
        let Some(names) = self.bindings.names.as_slice().get(number) else {
            return no_variables();
        };
        &names.variables
    }

    /// The types that the file declares, in its order, in constant time.
    pub fn types(&self) -> &[&'f TypeDeclaration]
        ensures { ∥ types_view result.now ≡ types_of (file_view self.now.file.now) ∥₁ }
    {
        &self.bindings.types
    }

    /// What a name that is used stands for in the file's scope, where it is declared there once, by the number that is kept of its use.
    pub fn standing_of_use(&self, name: &Name) -> Option<Standing>
        ensures { result ≡ standing (file_view self.now.file.now) (name_view name.now).text }
    {
        let number = self.bindings.numbers.get(name.at);
        standing_by_number(&self.bindings.table, number, name.text.as_str())
    }

    /// The type at the end of the way of a type, by their numbers, in constant time.
    pub fn end_of(&self, number: usize) -> usize
        ensures { result ≡ end_of (file_view self.now.file.now) number }
    {
        end_at(&self.bindings.ends, number)
    }
}
