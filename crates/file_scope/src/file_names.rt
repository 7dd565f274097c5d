// The scope of a file: what its names stand for.
ghost use Rattle.std.specs.Prelude.{◌≡◌, ◌+◌, ◌<◌, ◌^◌, [], ◌∷◌, ◌&&◌, not, length, OnOk, IfOk};
ghost use Rattle.rules.specs.Rules.{earlier, first_in};
ghost use Rattle.source_tree.specs.SyntaxView.{name_view, names_view, specification_view, file_view};
ghost use Rattle.naming.specs.Broken.{names_twice, in_file};
ghost use Rattle.naming.specs.DeclarationUses.{declaration_number};
ghost use Rattle.naming.specs.FileScope.{types_of, pous_of, names_of, first_standing, standing, is_doubled_in_file};
ghost use Rattle.naming.specs.Library.{is_library};
ghost use Rattle.file_scope.specs.FileView.{file_names_view};
ghost use Rattle.rules.specs.Outcomes.{outcome_of};
ghost use Rattle.naming.specs.Table.{entry_named, Holds};
ghost use Rattle.naming.specs.Types.{is_that_value, are_first, named_type};

use crate::names::FileName;
use crate::table::{Table, first_at, is_doubled_at, standing_at, table_of, use_in};
use naming::{Standing, is_library, is_that_value, type_number};
use rules::{Outcome, Refusal};
use source_tree::{Name, SourceFile, Specification, TypeName};
use std::alloc::{AllocError, Global};
use use_numbers::{UseNumbers, numbered};

/// A file, and the table of its names.
#[derive(Drop)]
pub struct FileNames<'a> {
    pub file: &'a SourceFile,
    pub table: Table,
    ghost held: { Holds table (entry_named (names_of (file_view file.now))) },
    ghost few: { length (types_of (file_view file.now)) + length (pous_of (file_view file.now)) < 2 ^ 64 },
}

impl FileNames<'_> {
    ghost use Rattle.use_numbers.specs.UseNumbers.{NotesUse};

    /// Keeps the number of a name that is used, where the file declares it.
    pub fn note(&self, numbers: &mut UseNumbers, name: &Name)
        ensures { NotesUse self.now.table (name_view name.now) numbers.old numbers.new }
    {
        if let Some((number, _)) = numbered(&self.table, name.text.as_str()) {
            numbers.keep(name.at, number);
        }
    }

    /// What a name stands for that the file's scope has once.
    pub fn standing(&self, name: &Name) -> Option<Standing>
        ensures { result ≡ standing (file_view self.now.file.now) (name_view name.now).text }
    {
        standing_at(&self.table, name.text.as_str())
    }

    /// Whether the file's scope has a name twice.
    pub fn is_doubled(&self, name: &Name) -> bool
        ensures { result ≡ is_doubled_in_file (file_view self.now.file.now) (name_view name.now).text }
    {
        is_doubled_at(&self.table, name.text.as_str())
    }

    /// A name that is looked up in the file's scope, where none is that fits.
    pub fn use_at(&self, name: &Name) -> Outcome
        ensures { result ≡ outcome_of (in_file (file_view self.now.file.now) (name_view name.now)) }
    {
        use_in(&self.table, name)
    }

    /// What the first declared of a name stands for.
    pub fn first_standing(&self, name: &Name) -> Option<Standing>
        ensures { result ≡ first_standing (name_view name.now).text (names_of (file_view self.now.file.now)) }
    {
        first_at(&self.table, name.text.as_str())
    }

    // Whether a name is no name of the library, and first declared as this value.
    fn is_first(&self, number: usize, place: usize, name: &Name) -> bool
        ensures { let q = (name_view name.now).text in result ≡ not (is_library q) && is_that_value number place (first_standing q (names_of (file_view self.now.file.now))) }
    {
        !is_library(name.text.as_str()) && is_that_value(number, place, self.first_standing(name))
    }

    // Whether the names of values behind the first break no rule.
    fn are_others_first(&self, number: usize, others: &[Name]) -> bool
        ensures { result ≡ are_first (file_view self.now.file.now) number 1 (names_view others.now) }
    {
        for (place, name) in others.iter().enumerate() {
            if !self.is_first(number, place + 1, name) {
                return false;
            }
        }
        true
    }

    /// Whether the names of the values of the enumeration of a number break no rule.
    pub fn are_first(&self, number: usize, first: &Name, others: &[Name]) -> bool
        ensures { result ≡ are_first (file_view self.now.file.now) number 0 (name_view first.now ∷ names_view others.now) }
    {
        self.is_first(number, 0, first) && self.are_others_first(number, others)
    }

    /// The declaration that a name stands for, by its number, where the file has so many types.
    pub fn declaration_number(&self, types: usize, name: &Name) -> Option<usize>
        requires { types ≡ length (types_of (file_view self.now.file.now)) }
        ensures { let f = file_view self.now.file.now in result ≡ declaration_number f (standing f (name_view name.now).text) }
    {
        match self.standing(name) {
            Some(Standing::Type(number)) => Some(number),
            Some(Standing::Pou(number)) => Some(types + number),
            _ => None,
        }
    }

    /// The type that a type by name names, where the file has one of that name, once.
    pub fn named_type(&self, specification: &Specification) -> Option<usize>
        ensures { result ≡ named_type (file_view self.now.file.now) (specification_view specification.now) }
    {
        match specification {
            Specification::Type(TypeName::Named(name)) => type_number(self.standing(name)),
            _ => None,
        }
    }
}

/// The scope of a file that declares these names. Keeps the first name that is declared twice, in the library or before.
pub fn file_names<'a>(
    alloc: Global,
    file: &'a SourceFile,
    names: &[FileName<'_>],
    first: &mut Option<Refusal>,
) -> Result<FileNames<'a>, AllocError>
    requires names { file_names_view names.now ≡ names_of (file_view file.now) }
    requires few { length names.now < 2 ^ 64 }
    ensures file { IfOk result (λ scope. file_view scope.file.now ≡ file_view file.now) }
    ensures twice { OnOk result (first.new ≡ earlier first.old (first_in (names_twice [] (names_of (file_view file.now))))) }
{
    let table = table_of(alloc, names, first)?;
    Ok(FileNames { file, table })
}
