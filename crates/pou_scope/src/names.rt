// The names of a POU, in the file around it.
ghost use Rattle.std.specs.Prelude.{◌≡◌, map};
ghost use Rattle.source_tree.specs.SyntaxView.{name_view, file_view};
ghost use Rattle.naming.specs.Scopes.{scope_with, seen_named};
ghost use Rattle.naming.specs.ScopeView.{variables_view, seen_view};
ghost use Rattle.pou_scope.specs.AllSeen.{all_seen};

use crate::pou_names::NamesOfPou;
use file_scope::FileScope;
use naming::Declared;
use source_tree::Name;
use use_numbers::UseNumbers;

/// A POU's names, and those of the file around it.
#[derive(Clone, Copy)]
pub struct Names<'a, 'f> {
    pub file: &'a FileScope<'f>,
    pub own: &'a NamesOfPou<'f>,
    ghost known: { map seen_view own.now.variables.items ≡ all_seen (file_view file.now.types.names.file.now) (scope_with own.now.has_fault (variables_view own.now.variables.items)) },
}

impl<'f> Names<'_, 'f> {
    ghost use Rattle.naming.specs.ScopeView.{seen_if};
    ghost use Rattle.pou_scope.specs.NamesView.{file_in, pou_in};
    ghost use Rattle.use_numbers.specs.UseNumbers.{NotesUse};

    // The variable of a name.
    fn seen(&self, name: &Name) -> Option<&Declared<'f>>
        ensures { seen_if result ≡ seen_named (file_in self.now) (pou_in self.now) (name_view name.now).text }
    {
        self.own.seen(name)
    }

    /// The variable that a name uses. Keeps the number of the use.
    pub fn used(&self, numbers: &mut UseNumbers, name: &Name) -> Option<&Declared<'f>>
        ensures seen { seen_if result ≡ seen_named (file_in self.now) (pou_in self.now) (name_view name.now).text }
        ensures numbers { NotesUse self.now.own.now.slots (name_view name.now) numbers.old numbers.new }
    {
        self.own.used(numbers, name)
    }

    /// The variable that a name uses as a step or an action of the chart. Keeps the number of that part.
    pub fn part(&self, numbers: &mut UseNumbers, name: &Name) -> Option<&Declared<'f>>
        ensures { seen_if result ≡ seen_named (file_in self.now) (pou_in self.now) (name_view name.now).text }
    {
        let seen = self.seen(name)?;
        if let Some(part) = seen.part {
            numbers.keep(name.at, part);
        }
        Some(seen)
    }

    /// Keeps the number of a name that is used, where the file declares it.
    pub fn note(&self, numbers: &mut UseNumbers, name: &Name)
        ensures { NotesUse self.now.file.now.types.names.table (name_view name.now) numbers.old numbers.new }
    {
        self.file.types.names.note(numbers, name);
    }
}
