// What is told of the variables of all POUs of a file, and what they stand for.
ghost use Rattle.std.specs.Prelude.{◌≡◌, ◌<◌, ◌^◌, [], length, map, option_map, unwrap_or, IfOk, OnOk};
ghost use Rattle.std.specs.List.{slice_get};
ghost use Rattle.naming.specs.FileScope.{pous_of};
ghost use Rattle.decl_types.specs.Bodies.{file_in};
ghost use Rattle.decl_types.specs.ToldView.{told_view};
ghost use Rattle.typing.specs.Members.{members_at};
ghost use Rattle.typing.specs.Places.{count_of_cells, variables_at};
ghost use Rattle.pou_cells.specs.PouTables.{all_members, HaveFewCells};
ghost use Rattle.pou_cells.specs.ToldPlaces.{told_at};
ghost use Rattle.pou_cells.specs.ToldMembers.{all_told};

use crate::block_members::members_in;
use decl_types::{Domains, Told, told_in};
use std::alloc::{AllocError, Global};
use typing::Member;

// What is told of the variables of the POU of a number.
fn told_pou<'p>(
    alloc: Global,
    domains: &Domains<'p>,
    number: usize,
) -> Result<Vec<Told<'p>>, AllocError>
    ensures { IfOk result (λ list. map told_view list.items ≡ told_at (file_in domains.now) number) }
{
    told_in(alloc, domains, domains.types.names.variables(number))
}

/// What is told of the variables of all POUs.
pub(crate) fn all_told<'p>(
    alloc: Global,
    domains: &Domains<'p>,
) -> Result<Vec<Vec<Told<'p>>>, AllocError>
    ensures { IfOk result (λ list. map (λ v. map told_view v.items) list.items ≡ all_told (file_in domains.now)) }
{
    let mut list = Vec::new(alloc);
    for number in 0..domains.types.names.pou_count() {
        list.push(told_pou(alloc, domains, number)?)?;
    }
    Ok(list)
}

/// Those of the POU of a number.
pub(crate) fn told_of_pou<'a, 'p>(told: &'a [Vec<Told<'p>>], number: usize) -> &'a [Told<'p>]
    ensures { map told_view result.now ≡ unwrap_or (option_map (λ v. map told_view v.items) (slice_get told.now number)) [] }
{
    if number < told.len() {
        &told[number]
    } else {
        &[]
    }
}

// The variables of the POU of a number, at their places where each block counts as one without cells. What is told of each takes some
// bytes of memory, so that they have few cells.
fn members_of_pou(
    alloc: Global,
    domains: &Domains<'_>,
    told: &[Vec<Told<'_>>],
    number: usize,
) -> Result<Vec<Member>, AllocError>
    requires told { map (λ v. map told_view v.items) told.now ≡ all_told (file_in domains.now) }
    requires number { number < length (pous_of (file_in domains.now)) }
    ensures members { IfOk result (λ list. list.items ≡ members_at (file_in domains.now) [] number) }
    ensures few { count_of_cells (file_in domains.now) [] (variables_at (file_in domains.now) number) < 2 ^ 62 }
{
    let pou = domains.types.names.pou(number);
    members_in(alloc, &[], &pou.pou_type, told_of_pou(told, number))
}

/// The variables of all POUs, at their places where each block counts as one without cells.
pub(crate) fn all_members(
    alloc: Global,
    domains: &Domains<'_>,
    told: &[Vec<Told<'_>>],
) -> Result<Vec<Vec<Member>>, AllocError>
    requires { map (λ v. map told_view v.items) told.now ≡ all_told (file_in domains.now) }
    ensures members { IfOk result (λ list. map (λ v. v.items) list.items ≡ all_members (file_in domains.now) []) }
    ensures few { OnOk result (HaveFewCells (file_in domains.now)) }
{
    let mut list = Vec::new(alloc);
    for number in 0..domains.types.names.pou_count() {
        list.push(members_of_pou(alloc, domains, told, number)?)?;
    }
    Ok(list)
}
