// The names of a POU's body.
use crate::block_members::place_of_input;
use crate::pous::Pous;
use source_tree::{Name, Path};
use typing::{Instance, Meaning, Port, Scope, Signature};

/// A POU of a file, by its number, where each block counts as one without cells.
#[derive(Clone, Copy)]
pub struct PouScope<'s> {
    pub pous: &'s Pous<'s>,
    pub number: usize,
}

impl Scope for PouScope<'_> {
    ghost use Rattle.pou_cells.specs.PouScopes.{means_in};

    ghost means = { means_in };

    fn meaning(&self, path: &Path) -> Option<Meaning> {
        match self.pous.member_of(self.number, &path.first) {
            None => self.value(&path.first),
            Some(member) => self.pous.meant_by(&path.members, member),
        }
    }

    fn value(&self, name: &Name) -> Option<Meaning> {
        self.pous.domains.types.value_of(name)
    }

    fn signature(&self, name: &Name) -> Option<Signature> {
        self.pous.signature(name)
    }

    fn port(&self, function: usize, place: usize) -> Option<Port> {
        self.pous.port(function, place)
    }

    fn input(&self, function: usize, name: &Name) -> Option<usize> {
        let member = self.pous.member_of(function, name)?;
        place_of_input(member)
    }

    fn instance(&self, name: &Name) -> Option<Instance> {
        let member = self.pous.member_of(self.number, name)?;
        self.pous.instance_of(member)
    }
}
