// The names of the body of a POU whose variables are placed.
ghost use Rattle.std.specs.Prelude.{◌≡◌, true};
ghost use Rattle.decl_types.specs.Bodies.{file_in};
ghost use Rattle.pou_cells.specs.Placing.{is_placed};

use crate::block_members::place_of_input;
use crate::placed_pous::PlacedPous;
use source_tree::{Name, Path};
use typing::{Instance, Meaning, Port, Scope, Signature};

/// A POU of a file, by its number, whose variables are placed, and those of the blocks of its instances.
#[derive(Clone, Copy)]
pub struct PlacedScope<'s> {
    pub placed: &'s PlacedPous<'s>,
    pub number: usize,
    ghost fits: { is_placed (file_in placed.now.pous.domains) number ≡ true },
}

impl Scope for PlacedScope<'_> {
    ghost use Rattle.pou_cells.specs.PouScopes.{means_placed};

    ghost means = { means_placed };

    fn meaning(&self, path: &Path) -> Option<Meaning> {
        match self.placed.member_of(self.number, &path.first) {
            None => self.value(&path.first),
            Some(member) => self.placed.meant_by(&path.members, member),
        }
    }

    fn value(&self, name: &Name) -> Option<Meaning> {
        let types = &self.placed.pous.domains.types;
        types.value_of(name)
    }

    fn signature(&self, name: &Name) -> Option<Signature> {
        self.placed.pous.signature(name)
    }

    fn port(&self, function: usize, place: usize) -> Option<Port> {
        self.placed.pous.port(function, place)
    }

    fn input(&self, function: usize, name: &Name) -> Option<usize> {
        let member = self.placed.pous.member_of(function, name)?;
        place_of_input(member)
    }

    fn instance(&self, name: &Name) -> Option<Instance> {
        let member = self.placed.member_of(self.number, name)?;
        self.placed.pous.instance_of(member)
    }
}
