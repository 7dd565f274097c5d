// A file whose names are bound and that breaks no rule on types.
ghost use Rattle.std.specs.Prelude.{◌≡◌, [], map, true, Some};
ghost use Rattle.file_bindings.specs.Bound.{program_number};
ghost use Rattle.decl_types.specs.Bodies.{file_in};
ghost use Rattle.pou_cells.specs.Placing.{capped};
ghost use Rattle.typing.specs.Places.{sizes_of};
ghost use Rattle.typing.specs.Pous.{broken_types, has_room};

use pou_cells::Pous;

/// A file whose names are bound, which breaks no rule on types and whose one PROGRAM has room for its cells: its POUs, the sizes of
/// those that are reached, where the greatest number of 64 bits stands for any greater one, and the number of the PROGRAM.
#[derive(Drop)]
pub struct Checked<'p> {
    pub(crate) pous: Pous<'p>,
    pub(crate) sizes: Vec<usize>,
    pub(crate) number: usize,
    ghost sized: { sizes.items ≡ map capped (sizes_of (file_in pous.domains)) },
    ghost one: { program_number (file_in pous.domains) ≡ Some number },
    ghost kept: { broken_types (file_in pous.domains) ≡ [] },
    ghost room: { has_room (file_in pous.domains) number ≡ true },
}
