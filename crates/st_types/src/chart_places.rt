// Where the charts of a POU and of its instances stand among its cells.
ghost use Rattle.std.specs.Prelude.{◌≡◌, ◌<◌, ◌+◌, ◌^◌, ◌++◌, map, true, IfOk, OnOk};
ghost use Rattle.decl_types.specs.Bodies.{file_in};
ghost use Rattle.decl_types.specs.ToldView.{told_view};
ghost use Rattle.pou_cells.specs.ToldPlaces.{told_cells};
ghost use Rattle.typing.specs.Places.{sizes_of, variables_at, count_of_cells};
ghost use Rattle.typing.specs.ChartPlaces.{block_charts, charts_in};
ghost use Rattle.typing.specs.Pous.{has_room};
ghost use Rattle.st_types.specs.ToldCharts.{told_steps, told_charts_of_variable, told_charts_of, told_block_cells, told_room};

use decl_types::Told;
use pou_cells::{PlacedPous, is_stored_action};
use program_tree::ChartCells;
use std::alloc::{AllocError, Global};

// How many of some names are steps.
fn steps_among(variables: &[Told<'_>]) -> usize
    ensures { result ≡ told_steps (map told_view variables.now) }
{
    let mut steps = 0;
    for told in variables {
        if told.role.is_step() {
            steps += 1;
        }
    }
    steps
}

// The place behind the cells of a variable, which begin at a place.
fn place_behind(placed: &PlacedPous<'_>, place: usize, told: &Told<'_>) -> usize
    requires { place + told_cells (sizes_of (file_in placed.now.pous.domains)) (told_view told.now) < 2 ^ 64 }
    ensures { result ≡ place + told_cells (sizes_of (file_in placed.now.pous.domains)) (told_view told.now) }
{
    place + placed.cells_taken(told)
}

// Appends the charts of an instance of a block, whose cells begin at a place.
#[cycle(write_charts)]
fn write_block(
    placed: &PlacedPous<'_>,
    depth: usize,
    place: usize,
    block: usize,
    list: &mut Vec<ChartCells>,
) -> Result<(), AllocError>
    requires { place + count_of_cells (file_in placed.now.pous.domains) (sizes_of (file_in placed.now.pous.domains)) (variables_at (file_in placed.now.pous.domains) block) < 2 ^ 64 }
    ensures { OnOk result (list.new.items ≡ list.old.items ++ block_charts (file_in placed.now.pous.domains) depth place block) }
{
    if depth == 0 {
        return Ok(());
    }
    write_charts(placed, depth - 1, place, placed.pous.told_at(block), list)
}

// Appends the charts of names, whose cells begin at a place. The cells of stored actions stand behind all others.
#[cycle(write_charts)]
fn write_charts(
    placed: &PlacedPous<'_>,
    depth: usize,
    first: usize,
    variables: &[Told<'_>],
    list: &mut Vec<ChartCells>,
) -> Result<(), AllocError>
    requires { first + told_room (sizes_of (file_in placed.now.pous.domains)) (map told_view variables.now) < 2 ^ 64 }
    ensures { OnOk result (list.new.items ≡ list.old.items ++ told_charts_of (sizes_of (file_in placed.now.pous.domains)) (block_charts (file_in placed.now.pous.domains) depth) first (map told_view variables.now)) }
{
    let mut place = first;
    for (index, told) in variables.iter().enumerate() {
        if is_stored_action(told.role) {
            continue;
        }
        if told.role.is_step() {
            let steps = steps_among(&variables[index..]);
            list.push(ChartCells {
                first: place,
                steps,
            })?;
            return Ok(());
        }
        write_variable(placed, depth, place, told, list)?;
        place = place_behind(placed, place, told);
    }
    Ok(())
}

// Appends the charts of a variable, where it is an instance.
#[cycle(write_charts)]
fn write_variable(
    placed: &PlacedPous<'_>,
    depth: usize,
    place: usize,
    told: &Told<'_>,
    list: &mut Vec<ChartCells>,
) -> Result<(), AllocError>
    requires { place + told_block_cells (sizes_of (file_in placed.now.pous.domains)) told.now.block < 2 ^ 64 }
    ensures { OnOk result (list.new.items ≡ list.old.items ++ told_charts_of_variable (sizes_of (file_in placed.now.pous.domains)) (block_charts (file_in placed.now.pous.domains) depth) place told.now.block) }
{
    let Some(block) = told.block else {
        return Ok(());
    };
    if placed.has_no_cells(block) {
        return Ok(());
    }
    write_block(placed, depth, place, block, list)
}

/// The charts of the PROGRAM of a number and of its instances, in the order of their cells, of which it has no more than M2 allows.
pub(crate) fn charts_in(
    alloc: Global,
    placed: &PlacedPous<'_>,
    number: usize,
) -> Result<Vec<ChartCells>, AllocError>
    requires { has_room (file_in placed.now.pous.domains) number ≡ true }
    ensures { IfOk result (λ list. list.items ≡ charts_in (file_in placed.now.pous.domains) (variables_at (file_in placed.now.pous.domains) number)) }
{
    let mut list = Vec::new(alloc);
    let depth = placed.pous.domains.types.names.pou_count();
    write_charts(placed, depth, 1, placed.pous.told_at(number), &mut list)?;
    Ok(list)
}
