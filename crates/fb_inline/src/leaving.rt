// EXIT and RETURN as flat statements: their flags, and what stands behind statements that may leave.
ghost use Rattle.std.specs.Prelude.{◌<◌, ◌^◌, ◌≡◌, ◌+◌, ◌++◌, true, length, IfOk, OnOk};
ghost use Rattle.program_tree.specs.View.{expr_view};
ghost use Rattle.flat_core.specs.FlatView.{flat_view, flats_view};
ghost use Rattle.flat_form.specs.Unless.{was_left, guarded, flag_scratch, flag_start, turn_flags, body_flags};
ghost use Rattle.fb_inline.specs.Leaving.{flags_view, within, are_none};

use crate::puts::{new_scratch, put_branch, put_number, whole_cell};
use flat_charts::{cell_at, joined, negated};
use flat_core::FlatStmt;
use flat_count::Leaves;
use plc_types::{Elementary, Operator};
use program_tree::{Scratch, TypedExpr};
use std::alloc::{AllocError, Global};
use std::mem;

/// The places of the cells that say that an EXIT of the innermost FOR was met, and a RETURN of the innermost body of its own; 0 where
/// there is none.
#[derive(Clone, Copy)]
pub struct Flags {
    pub exit: usize,
    pub returning: usize,
}

/// The flags of statements that stand in no FOR and in no body of its own.
pub const NO_FLAGS: Flags = Flags {
    exit: 0,
    returning: 0,
};

// One more scratch cell, which is cleared; its place.
fn put_flag(
    cells: usize,
    scratch: &mut Vec<Scratch>,
    out: &mut Vec<FlatStmt>,
) -> Result<usize, AllocError>
    requires { cells < 2 ^ 63 }
    ensures place { IfOk result (λ place. place ≡ cells + length scratch.old.items) }
    ensures list { OnOk result (flats_view out.new.items ≡ flats_view out.old.items ++ flag_start true (cells + length scratch.old.items)) }
    ensures scratch { OnOk result (scratch.new.items ≡ scratch.old.items ++ flag_scratch true) }
{
    let place = new_scratch(whole_cell(Elementary::Bool), cells, scratch)?;
    put_number(out, place, 0)?;
    Ok(place)
}

/// The flags of the turns of a FOR. Where it has an EXIT of its own it has a flag of its own, which is cleared before them.
pub fn turn_flags(
    exits: bool,
    flags: Flags,
    cells: usize,
    scratch: &mut Vec<Scratch>,
    out: &mut Vec<FlatStmt>,
) -> Result<Flags, AllocError>
    requires { cells < 2 ^ 63 }
    ensures flags { IfOk result (λ inner. flags_view inner ≡ turn_flags exits (flags_view flags) (cells + length scratch.old.items)) }
    ensures list { OnOk result (flats_view out.new.items ≡ flats_view out.old.items ++ flag_start exits (cells + length scratch.old.items)) }
    ensures scratch { OnOk result (scratch.new.items ≡ scratch.old.items ++ flag_scratch exits) }
{
    if !exits {
        return Ok(flags);
    }
    let exit = put_flag(cells, scratch, out)?;
    Ok(Flags {
        exit,
        returning: flags.returning,
    })
}

/// The flags of a body of its own. Where it has a RETURN of its own it has a flag of its own, which is cleared before it.
pub fn body_flags(
    returns: bool,
    flags: Flags,
    cells: usize,
    scratch: &mut Vec<Scratch>,
    out: &mut Vec<FlatStmt>,
) -> Result<Flags, AllocError>
    requires { cells < 2 ^ 63 }
    ensures flags { IfOk result (λ inner. flags_view inner ≡ body_flags returns (flags_view flags) (cells + length scratch.old.items)) }
    ensures list { OnOk result (flats_view out.new.items ≡ flats_view out.old.items ++ flag_start returns (cells + length scratch.old.items)) }
    ensures scratch { OnOk result (scratch.new.items ≡ scratch.old.items ++ flag_scratch returns) }
{
    if !returns {
        return Ok(flags);
    }
    let returning = put_flag(cells, scratch, out)?;
    Ok(Flags {
        exit: flags.exit,
        returning,
    })
}

/// Whether flat statements are none. An `If` without arms stands for its rest.
#[cycle(nothing)]
fn are_none(list: &[FlatStmt]) -> bool
    ensures { result ≡ are_none (flats_view list.now) }
{
    for stmt in list {
        if !is_none(stmt) {
            return false;
        }
    }
    true
}

#[cycle(nothing)]
fn is_none(stmt: &FlatStmt) -> bool
    ensures { result ≡ are_none (flat_view stmt.now) }
{
    match stmt {
        FlatStmt::Set(_, _) => false,
        FlatStmt::If(arms, rest) => arms.is_empty() && are_none(rest),
    }
}

// Whether statements were left that may be.
fn was_left(left: Leaves, flags: Flags, alloc: Global) -> Result<TypedExpr, AllocError>
    ensures { IfOk result (λ e. expr_view e ≡ was_left left.exits left.returns (flags_view flags)) }
{
    if !left.exits {
        return Ok(cell_at(flags.returning));
    }
    let exited = cell_at(flags.exit);
    if !left.returns {
        return Ok(exited);
    }
    let returned = cell_at(flags.returning);
    joined(alloc, exited, Operator::Or, Elementary::Bool, returned)
}

/// Appends statements that run where those before them, which may leave, did not; none become none.
pub fn put_guarded(
    left: Leaves,
    flags: Flags,
    rest: Vec<FlatStmt>,
    out: &mut Vec<FlatStmt>,
    alloc: Global,
) -> Result<(), AllocError>
    ensures { OnOk result (flats_view out.new.items
        ≡ flats_view out.old.items ++ guarded (was_left left.exits left.returns (flags_view flags)) (flats_view rest.items)) }
{
    if are_none(&rest) {
        return Ok(());
    }
    let was_left = was_left(left, flags, alloc)?;
    let test = negated(alloc, was_left)?;
    put_branch(out, test, rest, alloc)
}

/// Flat statements up to one that may leave.
#[derive(Drop)]
pub struct Part {
    pub left: Leaves,
    pub list: Vec<FlatStmt>,
}

/// Puts what stands behind parts into them, the last of them first.
pub fn close(
    mut parts: Vec<Part>,
    flags: Flags,
    out: &mut Vec<FlatStmt>,
    alloc: Global,
) -> Result<(), AllocError>
    ensures { OnOk result (flats_view out.new.items ≡ within (flags_view flags) parts.items (flats_view out.old.items)) }
{
    while let Some(part) = parts.pop() {
        let rest = mem::replace(out, part.list);
        put_guarded(part.left, flags, rest, out, alloc)?;
    }
    Ok(())
}
