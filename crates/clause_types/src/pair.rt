// Clauses over a pair of programs.
ghost use Rattle.std.specs.Prelude.{◌≡◌, length};
ghost use Rattle.plc_types.specs.Enumerations.{paired_type};
ghost use Rattle.program_tree.specs.View.{program_view};
ghost use Rattle.clause_types.specs.PairedTypes.{paired_in};

use crate::paired_types::PairedTypes;
use crate::sides::Side;
use plc_types::DataType;
use program_tree::Program;
use source_tree::{Name, Path};
use std::alloc::{AllocError, Global};
use typing::{Instance, Meaning, Port, Scope, Signature};

// The same of another data type.
fn of_kind(meaning: Meaning, kind: DataType) -> Meaning
    ensures { result ≡ record meaning { kind = kind } }
{
    Meaning { kind, ..meaning }
}

/// The cells and values of a pair of programs by the paths of clauses: `old.path` is one of OLD, and `new.path` one of
/// NEW, whose cells stand behind those of OLD; and its data types.
#[derive(Drop)]
pub struct PairScope<'p> {
    old: Side<'p>,
    new: Side<'p>,
    pub types: PairedTypes<'p>,
    ghost first: { old.start ≡ 0 },
    ghost behind: { new.start ≡ length (program_view old.program.now).cells },
    ghost paired: { paired_in types ≡ paired_type (program_view old.program.now).types (program_view new.program.now).types },
}

impl<'p> PairScope<'p> {
    ghost use Rattle.std.specs.Prelude.{◌≡◌, IfOk};
    ghost use Rattle.plc_types.specs.Enumerations.{paired_type};
    ghost use Rattle.source_tree.specs.SyntaxView.{names_view};
    ghost use Rattle.program_tree.specs.View.{program_view};
    ghost use Rattle.typing.specs.Programs.{member_of, pair_scope};
    ghost use Rattle.clause_types.specs.PairedTypes.{paired_in};
    ghost use Rattle.clause_types.specs.PlacesByPath.{places_by_path};
    ghost use Rattle.clause_types.specs.Pairs.{pair_means, old_places, new_places};

    /// The cells and values of a pair, to be looked up.
    pub fn new(
        alloc: Global,
        old: &'p Program,
        new: &'p Program,
    ) -> Result<PairScope<'p>, AllocError>
        ensures old { IfOk result (λ scope. old_places scope ≡ places_by_path (program_view old.now)) }
        ensures new { IfOk result (λ scope. new_places scope ≡ places_by_path (program_view new.now)) }
        ensures means { IfOk result (λ scope. pair_means scope ≡ pair_scope (program_view old.now) (program_view new.now)) }
        ensures types { IfOk result (λ scope. paired_in scope.types ≡ paired_type (program_view old.now).types (program_view new.now).types) }
    {
        let old = Side::new(alloc, 0, old)?;
        let types = PairedTypes::new(alloc, old.program, &old.values, new)?;
        let new = Side::new(alloc, old.program.cells.len(), new)?;
        Ok(PairScope { old, new, types })
    }

    /// The place among the cells of OLD of the first one of a path.
    pub fn find_old_place(&self, path: &str) -> Option<usize>
        ensures { result ≡ old_places self.now path.now }
    {
        self.old.find_place(path)
    }

    /// The same of NEW.
    pub fn find_new_place(&self, path: &str) -> Option<usize>
        ensures { result ≡ new_places self.now path.now }
    {
        self.new.find_place(path)
    }

    // What names behind `new` stand for: their data type is that of the pair.
    fn find_new(&self, members: &[Name]) -> Option<Meaning>
        ensures { result ≡ member_of (paired_type (program_view self.now.old.program.now).types (program_view self.now.new.program.now).types) self.now.new.start (program_view self.now.new.program.now) (names_view members.now) }
    {
        let meaning = self.new.find(members)?;
        Some(of_kind(meaning, self.types.paired(meaning.kind)))
    }
}

impl Scope for PairScope<'_> {
    ghost use Rattle.clause_types.specs.Pairs.{pair_means};

    ghost means = { pair_means };

    fn meaning(&self, path: &Path) -> Option<Meaning> {
        let program = path.first.text.as_str();
        if program == "OLD" {
            self.old.find(&path.members)
        } else if program == "NEW" {
            self.find_new(&path.members)
        } else {
            None
        }
    }

    fn value(&self, _name: &Name) -> Option<Meaning> {
        None
    }

    fn signature(&self, _name: &Name) -> Option<Signature> {
        None
    }

    fn port(&self, _function: usize, _place: usize) -> Option<Port> {
        None
    }

    fn input(&self, _function: usize, _name: &Name) -> Option<usize> {
        None
    }

    fn instance(&self, _name: &Name) -> Option<Instance> {
        None
    }
}
