// The variables of POUs at their places, where blocks have their sizes.
ghost use Rattle.std.specs.Prelude.{◌≡◌, ◌<◌, ◌==◌, map, length, true, [], Some, is_some, option_map, unwrap_or, IfOk};
ghost use Rattle.std.specs.List.{list_all};
ghost use Rattle.source_tree.specs.SyntaxView.{name_view, names_view};
ghost use Rattle.naming.specs.FileScope.{pous_of};
ghost use Rattle.decl_types.specs.Bodies.{file_in};
ghost use Rattle.decl_types.specs.ToldView.{told_view};
ghost use Rattle.typing.specs.Places.{size_among, sizes_of};
ghost use Rattle.pou_cells.specs.ToldPlaces.{told_cells};
ghost use Rattle.pou_cells.specs.Placing.{capped, all_placed, placed_at, is_placed_block, is_placed};

use crate::block_members::{members_in, seen_from};
use crate::named_members::member_bound;
use crate::places::{cells_taken, size_among};
use crate::pous::Pous;
use crate::sizes::capped_cells;
use decl_types::Told;
use source_tree::Name;
use std::alloc::{AllocError, Global};
use typing::{Meaning, Member};

// How many cells a POU has at most whose variables are placed: 2^24.
const MOST_CELLS: usize = 16_777_216;

/// The POUs of a file, the sizes of those that are reached, where the greatest number of 64 bits stands for any greater one, and the
/// variables of each POU at their places, where it has at most 2^24 cells. A larger one is not placed: its cells are never spread.
#[derive(Drop)]
pub struct PlacedPous<'p> {
    pub pous: Pous<'p>,
    pub sizes: Vec<usize>,
    members: Vec<Option<Vec<Member>>>,
    ghost sized: { sizes.items ≡ map capped (sizes_of (file_in pous.domains)) },
    ghost placed: { map (option_map (λ v. v.items)) members.items ≡ all_placed (file_in pous.domains) },
}

// The variables of the POU of a number at their places, where it has few cells.
fn placed_members(
    alloc: Global,
    pous: &Pous<'_>,
    sizes: &[usize],
    number: usize,
) -> Result<Option<Vec<Member>>, AllocError>
    requires sizes { sizes.now ≡ map capped (sizes_of (file_in pous.now.domains)) }
    requires number { number < length (pous_of (file_in pous.now.domains)) }
    ensures { IfOk result (λ members. option_map (λ v. v.items) members ≡ placed_at (file_in pous.now.domains) number) }
{
    let variables = pous.told_at(number);
    if capped_cells(sizes, variables) > MOST_CELLS {
        return Ok(None);
    }
    let pou = pous.domains.types.names.pou(number);
    let members = members_in(alloc, sizes, &pou.pou_type, variables)?;
    Ok(Some(members))
}

// Those of all POUs.
fn all_placed(
    alloc: Global,
    pous: &Pous<'_>,
    sizes: &[usize],
) -> Result<Vec<Option<Vec<Member>>>, AllocError>
    requires { sizes.now ≡ map capped (sizes_of (file_in pous.now.domains)) }
    ensures { IfOk result (λ list. map (option_map (λ v. v.items)) list.items ≡ all_placed (file_in pous.now.domains)) }
{
    let mut list = Vec::new(alloc);
    for number in 0..pous.domains.types.names.pou_count() {
        list.push(placed_members(alloc, pous, sizes, number)?)?;
    }
    Ok(list)
}

// The variables that are placed, or none.
fn members_of(members: &Option<Vec<Member>>) -> &[Member]
    ensures { result.now ≡ unwrap_or (option_map (λ v. v.items) members.now) [] }
{
    match members {
        None => &[],
        Some(members) => members,
    }
}

impl<'p> PlacedPous<'p> {
    ghost use Rattle.std.specs.Prelude.{◌^◌, IfSome};
    ghost use Rattle.typing.specs.Members.{member_at, members_at, in_instance, meant_by};

    /// The POUs of a file with their variables at their places, where POUs have these sizes.
    pub fn new(
        alloc: Global,
        pous: Pous<'p>,
        sizes: Vec<usize>,
    ) -> Result<PlacedPous<'p>, AllocError>
        requires { sizes.items ≡ map capped (sizes_of (file_in pous.domains)) }
        ensures { IfOk result (λ s. file_in s.pous.domains ≡ file_in pous.entry.domains) }
    {
        let members = all_placed(alloc, &pous, &sizes)?;
        Ok(PlacedPous {
            pous,
            sizes,
            members,
        })
    }

    // Whether the variables of the POU of a number are placed.
    fn has_places(&self, number: usize) -> bool
        ensures { result ≡ is_some (placed_at (file_in self.now.pous.domains) number) }
    {
        match self.members.get(number) {
            None => false,
            Some(members) => members.is_some(),
        }
    }

    // Whether those of the block of an instance are.
    fn is_placed_block(&self, block: Option<usize>) -> bool
        ensures { result ≡ is_placed_block (file_in self.now.pous.domains) block }
    {
        match block {
            None => true,
            Some(block) => self.has_places(block),
        }
    }

    // Whether those of the blocks of all instances among these variables are.
    fn are_blocks_placed(&self, variables: &[Told<'_>]) -> bool
        ensures { result ≡ list_all (λ t. is_placed_block (file_in self.now.pous.domains) t.block) (map told_view variables.now) }
    {
        for told in variables {
            if !self.is_placed_block(told.block) {
                return false;
            }
        }
        true
    }

    /// Whether the variables of the POU of a number are placed, and those of the blocks of its instances.
    pub fn is_placed(&self, number: usize) -> bool
        ensures { result ≡ is_placed (file_in self.now.pous.domains) number }
    {
        self.has_places(number) && self.are_blocks_placed(self.pous.told_at(number))
    }

    /// Whether a block has no cells.
    pub fn has_no_cells(&self, block: usize) -> bool
        ensures { result ≡ (size_among (sizes_of (file_in self.now.pous.domains)) (Some block) == 0) }
    {
        size_among(&self.sizes, Some(block)) == 0
    }

    /// How many cells a variable takes; the greatest number of 64 bits stands for any greater one.
    pub fn cells_taken(&self, told: &Told<'_>) -> usize
        ensures { result ≡ capped (told_cells (sizes_of (file_in self.now.pous.domains)) (told_view told.now)) }
    {
        cells_taken(&self.sizes, told)
    }

    // The variables of the POU of a number, where they are placed.
    fn members_at(&self, number: usize) -> &[Member]
        ensures { result.now ≡ unwrap_or (placed_at (file_in self.now.pous.domains) number) [] }
    {
        match self.members.get(number) {
            None => &[],
            Some(members) => members_of(members),
        }
    }

    /// The variable that a name means in the POU of a number, in constant time.
    pub(crate) fn member_of(&self, number: usize, name: &Name) -> Option<Member>
        requires { is_some (placed_at (file_in self.now.pous.domains) number) ≡ true }
        ensures low { IfSome result (λ m. m.cell < 2 ^ 63) }
        ensures member { result ≡ member_at (file_in self.now.pous.domains) (sizes_of (file_in self.now.pous.domains)) number (name_view name.now).text }
    {
        let bound = self.pous.domains.types.names.bound(number, name);
        member_bound(self.members_at(number), bound)
    }

    // What a name stands for behind an instance of a block.
    fn in_instance(&self, cell: usize, name: &Name, block: Option<usize>) -> Option<Meaning>
        requires low { cell < 2 ^ 63 }
        requires placed { is_placed_block (file_in self.now.pous.domains) block ≡ true }
        ensures { result ≡ in_instance (file_in self.now.pous.domains) (sizes_of (file_in self.now.pous.domains)) cell (name_view name.now) block }
    {
        match block {
            None => None,
            Some(block) => match self.member_of(block, name) {
                None => None,
                Some(member) => Some(seen_from(cell, member)),
            },
        }
    }

    /// What a path stands for that begins with a variable or a step.
    pub(crate) fn meant_by(&self, members: &[Name], member: Member) -> Option<Meaning>
        requires low { member.cell < 2 ^ 63 }
        requires placed { is_placed_block (file_in self.now.pous.domains) member.block ≡ true }
        ensures { result ≡ meant_by (file_in self.now.pous.domains) (sizes_of (file_in self.now.pous.domains)) (names_view members.now) member }
    {
        match members.first() {
            None => Some(member.meaning),
            Some(_) if member.role.is_step() => Some(member.meaning),
            Some(name) => self.in_instance(member.cell, name, member.block),
        }
    }
}
