// The names of POUs, and what they stand for.
ghost use Rattle.std.specs.Prelude.{◌≡◌, ◌<◌, ◌+◌, ◌^◌, map, IfOk};
ghost use Rattle.source_tree.specs.SyntaxView.{pou_type_view};
ghost use Rattle.typing.specs.Members.{seen_from, place_of_input, port_of, ports_of};
ghost use Rattle.decl_types.specs.ToldView.{told_view};
ghost use Rattle.pou_cells.specs.ToldPlaces.{told_count};
ghost use Rattle.pou_cells.specs.ToldMembers.{told_meaning, told_member, told_members};

use crate::places::{first_place, first_places, places_behind};
use crate::roles::{has_cell, may_be_assigned, may_control};
use decl_types::Told;
use source_tree::PouType;
use std::alloc::{AllocError, Global};
use typing::{Meaning, Member, Place, Port};

// The place of what has no cells is the value that it begins with.
fn place_at(cell: usize, told: &Told<'_>) -> Place
    ensures { result ≡ (told_meaning cell (told_view told.now)).place }
{
    if has_cell(told.role) {
        Place::Cell(cell)
    } else {
        Place::Value(told.initial)
    }
}

// What a variable stands for whose first cell, where it has one, is at a place.
fn meaning_of(cell: usize, told: &Told<'_>) -> Meaning
    ensures { result ≡ told_meaning cell (told_view told.now) }
{
    Meaning {
        place: place_at(cell, told),
        kind: told.domain.kind,
        range: told.domain.range,
        whole: told.judged.whole,
        assignable: may_be_assigned(told.role),
        control: may_control(told.role),
    }
}

// A variable whose first cell is at a place.
fn member_of(cell: usize, told: &Told<'_>) -> Member
    ensures { result ≡ told_member cell (told_view told.now) }
{
    Member {
        cell,
        meaning: meaning_of(cell, told),
        role: told.role,
        block: told.block,
    }
}

/// The variables of a POU in declared order, where blocks have these sizes.
pub fn members_in(
    alloc: Global,
    sizes: &[usize],
    pou_type: &PouType,
    tolds: &[Told<'_>],
) -> Result<Vec<Member>, AllocError>
    requires { told_count sizes.now (map told_view tolds.now) < 2 ^ 62 }
    ensures { IfOk result (λ list. list.items ≡ told_members sizes.now (pou_type_view pou_type.now) (map told_view tolds.now)) }
{
    let mut list = Vec::new(alloc);
    let mut next = first_places(sizes, pou_type, tolds);
    for told in tolds {
        list.push(member_of(first_place(next, told), told))?;
        next = places_behind(sizes, next, told);
    }
    Ok(list)
}

/// What a variable of a block stands for in an instance whose cells begin at a place.
pub fn seen_from(cell: usize, member: Member) -> Meaning
    requires { cell + member.cell < 2 ^ 64 }
    ensures { result ≡ seen_from cell member }
{
    Meaning {
        place: Place::Cell(cell + member.cell),
        assignable: member.role.is_input(),
        control: false,
        ..member.meaning
    }
}

/// The place of an input among the inputs of its FUNCTION.
pub fn place_of_input(member: Member) -> Option<usize>
    ensures { result ≡ place_of_input member }
{
    if member.role.is_input() {
        Some(member.cell.saturating_sub(2))
    } else {
        None
    }
}

/// A variable as an input, or as what a FUNCTION answers.
pub fn port_of(member: Member) -> Port
    ensures { result ≡ port_of member }
{
    Port {
        kind: member.meaning.kind,
        whole: member.meaning.whole,
    }
}

/// The inputs among variables, in their order.
pub fn ports_of(alloc: Global, members: &[Member]) -> Result<Vec<Port>, AllocError>
    ensures { IfOk result (λ list. list.items ≡ ports_of members.now) }
{
    let mut list = Vec::new(alloc);
    for member in members {
        if member.role.is_input() {
            list.push(port_of(*member))?;
        }
    }
    Ok(list)
}
