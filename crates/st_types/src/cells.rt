// The cells of POUs, those of instances in their places.
ghost use Rattle.std.specs.Prelude.{◌≡◌, ◌∷◌, ◌++◌, map, length, true, false, None, option_map, IfOk, OnOk};
ghost use Rattle.std.specs.String.{string_bytes};
ghost use Rattle.source_tree.specs.SyntaxView.{name_view};
ghost use Rattle.program_tree.specs.View.{cell_view, cells_view, texts_view};
ghost use Rattle.naming.specs.FileScope.{pous_of};
ghost use Rattle.decl_types.specs.Bodies.{file_in};
ghost use Rattle.decl_types.specs.ToldView.{told_view};
ghost use Rattle.pou_cells.specs.ToldPlaces.{told_at};
ghost use Rattle.typing.specs.Places.{in_front, sizes_of, variables_at};
ghost use Rattle.typing.specs.TypedPrograms.{path_of, path_behind, flag_cell, fault_cell, cells_of, block_cells, cells_in, names_without_cell};
ghost use Rattle.st_types.specs.ToldCells.{told_cell_for, told_cells_for, told_cells_of_variable, is_written, told_cells_of, is_told_without_cell, told_without_cell};

use decl_types::Told;
use expr_types::{bool_type, range};
use naming::Role;
use plc_types::{Elementary, Value};
use pou_cells::{
    PlacedPous, Pous, active_first, has_cell, is_constant, is_front, is_stored_action, part_in,
};
use program_tree::{Cell, Part};
use source_tree::Name;
use std::alloc::{AllocError, Global};

// Which cells of a POU's names are written: of a FUNCTION or another POU, of those names that stand in front or of the others, and
// inside an instance or not.
#[derive(Clone, Copy)]
struct Walk {
    of_function: bool,
    in_front: bool,
    inside: bool,
}

// Whether a walk writes the cells of a name.
fn is_written(walk: Walk, role: Role) -> bool
    ensures { result ≡ is_written walk role }
{
    let front = is_front(walk.of_function, role);
    let chosen = if walk.in_front { front } else { !front };
    chosen && has_cell(role)
}

// The path of a cell behind what stands before it, where paths are wanted.
fn path_of(alloc: Global, before: Option<&str>, name: &str) -> Result<String, AllocError>
    ensures { IfOk result (λ path. string_bytes path ≡ path_of (option_map (λ b. b.now) before.entry) name.now) }
{
    match before {
        None => String::from_str(alloc, ""),
        Some(before) => {
            let mut path = String::from_str(alloc, before)?;
            path.push_str(name)?;
            Ok(path)
        }
    }
}

// What stands before the cells of an instance or a step.
fn path_behind(
    alloc: Global,
    before: Option<&str>,
    name: &Name,
) -> Result<Option<String>, AllocError>
    ensures { IfOk result (λ path. option_map string_bytes path ≡ path_behind (option_map (λ b. b.now) before.entry) (name_view name.now)) }
{
    match before {
        None => Ok(None),
        Some(before) => {
            let mut path = String::from_str(alloc, before)?;
            path.push_str(name.text.as_str())?;
            path.push_str(".")?;
            Ok(Some(path))
        }
    }
}

// The cell of a variable.
fn cell_for(
    alloc: Global,
    inside: bool,
    before: Option<&str>,
    told: &Told<'_>,
) -> Result<Cell, AllocError>
    ensures { IfOk result (λ cell. cell_view cell ≡ told_cell_for inside (option_map (λ b. b.now) before.entry) (told_view told.now)) }
{
    Ok(Cell {
        path: path_of(alloc, before, told.name.text.as_str())?,
        part: part_in(inside, told.role),
        kind: told.domain.kind,
        range: told.domain.range,
        is_subrange: told.domain.is_subrange,
        initial: told.initial,
    })
}

// A cell of a step or an action.
fn flag_cell(
    alloc: Global,
    before: Option<&str>,
    name: &Name,
    text: &str,
    initial: Value,
) -> Result<Cell, AllocError>
    ensures { IfOk result (λ cell. cell_view cell ≡ flag_cell (option_map (λ b. b.now) before.entry) (name_view name.now) text.now initial) }
{
    let inner = path_behind(alloc, before, name)?;
    let path = match &inner {
        None => path_of(alloc, None, text)?,
        Some(path) => path_of(alloc, Some(path.as_str()), text)?,
    };
    Ok(Cell {
        path,
        part: Part::Local,
        kind: bool_type(),
        range: range(Elementary::Bool),
        is_subrange: false,
        initial,
    })
}

// Appends the cells of a name that is no instance.
fn write_cells_for(
    alloc: Global,
    inside: bool,
    before: Option<&str>,
    told: &Told<'_>,
    list: &mut Vec<Cell>,
) -> Result<(), AllocError>
    ensures { OnOk result (cells_view list.new.items ≡ cells_view list.old.items ++ told_cells_for inside (option_map (λ b. b.now) before.entry) (told_view told.now)) }
{
    let name = told.name;
    if told.role.is_step() {
        let first = active_first(told.role);
        list.push(flag_cell(alloc, before, name, "X", first)?)?;
        list.push(flag_cell(alloc, before, name, "L", 0)?)?;
    } else if is_stored_action(told.role) {
        list.push(flag_cell(alloc, before, name, "S", 0)?)?;
    } else {
        list.push(cell_for(alloc, inside, before, told)?)?;
    }
    Ok(())
}

// The cell of FAULT.
fn fault_cell(alloc: Global) -> Result<Cell, AllocError>
    ensures { IfOk result (λ cell. cell_view cell ≡ fault_cell) }
{
    Ok(Cell {
        path: String::from_str(alloc, "FAULT")?,
        part: Part::Fault,
        kind: bool_type(),
        range: range(Elementary::Bool),
        is_subrange: false,
        initial: 0,
    })
}

// Appends the cells of an instance of a block.
#[cycle(write_cells)]
fn write_block(
    alloc: Global,
    placed: &PlacedPous<'_>,
    depth: usize,
    before: Option<&str>,
    block: usize,
    list: &mut Vec<Cell>,
) -> Result<(), AllocError>
    ensures { OnOk result (cells_view list.new.items ≡ cells_view list.old.items ++ block_cells (file_in placed.now.pous.domains) depth (option_map (λ b. b.now) before.entry) block) }
{
    if depth == 0 {
        return Ok(());
    }
    let variables = placed.pous.told_at(block);
    let front = Walk {
        of_function: false,
        in_front: true,
        inside: true,
    };
    write_variables(alloc, placed, depth - 1, front, before, variables, list)?;
    let rest = Walk {
        in_front: false,
        ..front
    };
    write_variables(alloc, placed, depth - 1, rest, before, variables, list)
}

// Appends the cells of the names of a POU that a walk writes, where instances stand in one another so many times at most.
#[cycle(write_cells)]
fn write_variables(
    alloc: Global,
    placed: &PlacedPous<'_>,
    depth: usize,
    walk: Walk,
    before: Option<&str>,
    variables: &[Told<'_>],
    list: &mut Vec<Cell>,
) -> Result<(), AllocError>
    ensures { OnOk result (cells_view list.new.items ≡ cells_view list.old.items ++ told_cells_of (sizes_of (file_in placed.now.pous.domains)) (block_cells (file_in placed.now.pous.domains) depth) walk (option_map (λ b. b.now) before.entry) (map told_view variables.now)) }
{
    for told in variables {
        if is_written(walk, told.role) {
            write_variable(alloc, placed, depth, walk.inside, before, told, list)?;
        }
    }
    Ok(())
}

// Appends the cells of a variable.
#[cycle(write_cells)]
fn write_variable(
    alloc: Global,
    placed: &PlacedPous<'_>,
    depth: usize,
    inside: bool,
    before: Option<&str>,
    told: &Told<'_>,
    list: &mut Vec<Cell>,
) -> Result<(), AllocError>
    ensures { OnOk result (cells_view list.new.items ≡ cells_view list.old.items ++ told_cells_of_variable (sizes_of (file_in placed.now.pous.domains)) (block_cells (file_in placed.now.pous.domains) depth) inside (option_map (λ b. b.now) before.entry) (told_view told.now) told.now.block) }
{
    let Some(block) = told.block else {
        return write_cells_for(alloc, inside, before, told, list);
    };
    if placed.has_no_cells(block) {
        return Ok(());
    }
    let inner = path_behind(alloc, before, told.name)?;
    match &inner {
        None => write_block(alloc, placed, depth, None, block, list),
        Some(path) => write_block(alloc, placed, depth, Some(path.as_str()), block, list),
    }
}

// Appends the cells of those names of the POU of a number that stand in front, or of the others.
fn write_part(
    alloc: Global,
    placed: &PlacedPous<'_>,
    walk: Walk,
    before: Option<&str>,
    number: usize,
    list: &mut Vec<Cell>,
) -> Result<(), AllocError>
    ensures { OnOk result (cells_view list.new.items ≡ cells_view list.old.items ++ told_cells_of (sizes_of (file_in placed.now.pous.domains)) (block_cells (file_in placed.now.pous.domains) (length (pous_of (file_in placed.now.pous.domains)))) walk (option_map (λ b. b.now) before.entry) (told_at (file_in placed.now.pous.domains) number)) }
{
    let depth = placed.pous.domains.types.names.pou_count();
    write_variables(
        alloc,
        placed,
        depth,
        walk,
        before,
        placed.pous.told_at(number),
        list,
    )
}

/// FAULT's cell and those of the names of a FUNCTION or another POU, by its number, with their paths or without.
pub(crate) fn cells_behind_fault(
    alloc: Global,
    placed: &PlacedPous<'_>,
    before: Option<&str>,
    of_function: bool,
    number: usize,
) -> Result<Vec<Cell>, AllocError>
    ensures { IfOk result (λ list. cells_view list.items ≡ fault_cell ∷ cells_in (file_in placed.now.pous.domains) (option_map (λ b. b.now) before.entry) of_function (variables_at (file_in placed.now.pous.domains) number)) }
{
    let mut list = Vec::new(alloc);
    list.push(fault_cell(alloc)?)?;
    let front = Walk {
        of_function,
        in_front: true,
        inside: false,
    };
    write_part(alloc, placed, front, before, number, &mut list)?;
    let rest = Walk {
        in_front: false,
        ..front
    };
    write_part(alloc, placed, rest, before, number, &mut list)?;
    Ok(list)
}

/// FAULT's cell, and those of what the FUNCTION of a number answers and of its inputs.
pub(crate) fn front_cells(
    alloc: Global,
    placed: &PlacedPous<'_>,
    number: usize,
) -> Result<Vec<Cell>, AllocError>
    ensures { IfOk result (λ list. cells_view list.items ≡ fault_cell ∷ cells_of (file_in placed.now.pous.domains) (block_cells (file_in placed.now.pous.domains) (length (pous_of (file_in placed.now.pous.domains)))) false None (in_front true (variables_at (file_in placed.now.pous.domains) number))) }
{
    let mut list = Vec::new(alloc);
    list.push(fault_cell(alloc)?)?;
    let front = Walk {
        of_function: true,
        in_front: true,
        inside: false,
    };
    write_part(alloc, placed, front, None, number, &mut list)?;
    Ok(list)
}

// Whether a variable is a constant or an instance.
fn is_without_cell(told: &Told<'_>) -> bool
    ensures { result ≡ is_told_without_cell (told_view told.now) }
{
    is_constant(told.role) || told.block.is_some()
}

// The names of constants and instances.
fn told_without_cell(alloc: Global, variables: &[Told<'_>]) -> Result<Vec<String>, AllocError>
    ensures { IfOk result (λ list. texts_view list.items ≡ told_without_cell (map told_view variables.now)) }
{
    let mut list = Vec::new(alloc);
    for told in variables {
        if is_without_cell(told) {
            list.push(String::from_str(alloc, told.name.text.as_str())?)?;
        }
    }
    Ok(list)
}

/// The names of the constants and instances of the POU of a number.
pub(crate) fn names_without_cell(
    alloc: Global,
    pous: &Pous<'_>,
    number: usize,
) -> Result<Vec<String>, AllocError>
    ensures { IfOk result (λ list. texts_view list.items ≡ names_without_cell (file_in pous.now.domains) (variables_at (file_in pous.now.domains) number)) }
{
    told_without_cell(alloc, pous.told_at(number))
}
