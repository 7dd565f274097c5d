// The domains of the types of a file, and what their declarations break.
ghost use Rattle.std.specs.Prelude.{◌≡◌, map};
ghost use Rattle.source_tree.specs.SyntaxView.{file_view};
ghost use Rattle.naming.specs.FileScope.{types_of};
ghost use Rattle.typing.specs.OwnDomains.{own_domains};
ghost use Rattle.decl_types.specs.Spelled.{spelled_outcome, declared_outcomes};

use crate::elementary_domains::no_domain;
use crate::file_types::FileTypes;
use crate::own_domains::{Spelled, own_domains};
use file_bindings::Resolved;
use naming::Standing;
use source_tree::Name;
use std::alloc::{AllocError, Global};
use typing::Domain;

/// The types of a file, and by their numbers the domain of each as it is spelled, and what its declaration breaks. One that names
/// another has no domain of its own: its domain is that of the type at the end of its way.
#[derive(Drop)]
pub struct Domains<'p> {
    pub types: FileTypes<'p>,
    own: Vec<Domain>,
    pub(crate) judged: Vec<Spelled<'p>>,
    ghost spelled: { own.items ≡ own_domains (file_view types.names.now.file.now) 0 (types_of (file_view types.names.now.file.now)) },
    ghost outcomes: { map (spelled_outcome (file_view types.names.now.file.now)) judged.items ≡ declared_outcomes (file_view types.names.now.file.now) (types_of (file_view types.names.now.file.now)) },
}

impl<'p> Domains<'p> {
    ghost use Rattle.std.specs.Prelude.{◌≡◌, IfOk};
    ghost use Rattle.source_tree.specs.SyntaxView.{name_view, file_view};
    ghost use Rattle.naming.specs.FileScope.{standing};
    ghost use Rattle.decl_types.specs.Bodies.{file_in};
    ghost use Rattle.typing.specs.Domains.{named_domain};

    /// The types of a file with their domains; each declaration is judged here, once.
    pub fn new(alloc: Global, names: &'p Resolved<'p>) -> Result<Domains<'p>, AllocError>
        ensures { IfOk result (λ s. file_in s ≡ file_view names.now.file.now) }
    {
        let types = FileTypes::new(names);
        let (judged, own) = own_domains(alloc, &types)?;
        Ok(Domains { types, own, judged })
    }

    /// The domain of a type by its name, by the number that is kept of its use.
    pub fn named(&self, name: &Name) -> Domain
        ensures { result ≡ named_domain (file_in self.now) (standing (file_in self.now) (name_view name.now).text) }
    {
        match self.types.names.standing_of_use(name) {
            Some(Standing::Type(number)) => {
                let end = self.types.names.end_of(number);
                self.own.get(end).copied().unwrap_or(no_domain())
            }
            _ => no_domain(),
        }
    }
}
