// The types of a file, and what its names stand for as values.
ghost use Rattle.std.specs.Prelude.{◌≡◌, ◌<◌, Some};
ghost use Rattle.source_tree.specs.SyntaxView.{specification_view, file_view};
ghost use Rattle.naming.specs.FileScope.{types_of};
ghost use Rattle.naming.specs.ScopeView.{types_view};
ghost use Rattle.typing.specs.Domains.{is_few, value_meaning};
ghost use Rattle.typing.specs.OwnDomains.{count_of_values};

use crate::elementary_domains::has_few;
use expr_types::valued;
use file_bindings::Resolved;
use naming::Standing;
use plc_types::Value;
use source_tree::{Name, Path, Specification, TypeDeclaration};
use typing::{Instance, Meaning, Port, Scope, Signature};

/// A file whose names are bound, and the types that it declares, by their numbers.
#[derive(Drop)]
pub struct FileTypes<'p> {
    pub names: &'p Resolved<'p>,
    pub types: &'p [&'p TypeDeclaration],
    ghost declared: { ∥ types_view types.now ≡ types_of (file_view names.now.file.now) ∥₁ },
}

// A value of the type of a number, by its own number.
fn value_of_type(kind: usize, number: usize, specification: &Specification) -> Meaning
    requires { number < count_of_values (specification_view specification.now) }
    ensures { result ≡ value_meaning kind number (is_few (Some (specification_view specification.now))) }
{
    match specification {
        Specification::Enumeration(_, _, others) => {
            let whole = has_few(others);
            valued(kind, number as Value, whole)
        }
        Specification::Type(_) => valued(kind, 0, false),
    }
}

impl<'p> FileTypes<'p> {
    ghost use Rattle.std.specs.Prelude.{◌≡◌};
    ghost use Rattle.source_tree.specs.SyntaxView.{name_view, file_view};
    ghost use Rattle.naming.specs.FileScope.{standing};
    ghost use Rattle.decl_types.specs.Bodies.{file_of};
    ghost use Rattle.typing.specs.Domains.{value_at};

    /// The types of a file.
    pub fn new(names: &'p Resolved<'p>) -> FileTypes<'p>
        ensures { file_of result ≡ file_view names.now.file.now }
    {
        let types = names.types();
        FileTypes { names, types }
    }

    /// What a name that is used stands for as a value.
    pub fn value_of(&self, name: &Name) -> Option<Meaning>
        ensures { result ≡ value_at (file_of self.now) (standing (file_of self.now) (name_view name.now).text) }
    {
        match self.names.standing_of_use(name) {
            Some(Standing::Value(kind, number)) => {
                let declaration = self.types.get(kind)?;
                Some(value_of_type(kind, number, &declaration.specification))
            }
            _ => None,
        }
    }
}

impl Scope for FileTypes<'_> {
    ghost use Rattle.decl_types.specs.Bodies.{values_in};

    ghost means = { values_in };

    fn meaning(&self, path: &Path) -> Option<Meaning> {
        self.value_of(&path.first)
    }

    fn value(&self, name: &Name) -> Option<Meaning> {
        self.value_of(name)
    }

    fn signature(&self, _name: &Name) -> Option<Signature> {
        None
    }

    fn port(&self, _function: usize, _place: usize) -> Option<Port> {
        None
    }

    fn input(&self, _function: usize, _name: &Name) -> Option<usize> {
        None
    }

    fn instance(&self, _name: &Name) -> Option<Instance> {
        None
    }
}
