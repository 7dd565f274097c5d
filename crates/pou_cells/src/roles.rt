// What the names of POUs are for.
ghost use Rattle.std.specs.Prelude.{◌≡◌};
ghost use Rattle.typing.specs.Members.{may_be_assigned, may_control};
ghost use Rattle.typing.specs.Places.{has_cell, is_stored_action, is_front};
ghost use Rattle.typing.specs.TypedPrograms.{part_of, part_in, active_first, is_constant, is_temporary};

use naming::Role;
use plc_types::Value;
use program_tree::Part;

/// Own inputs, constants and the names of a chart may not be assigned.
pub fn may_be_assigned(role: Role) -> bool
    ensures { result ≡ may_be_assigned role }
{
    match role {
        Role::Input | Role::Constant => false,
        Role::Output | Role::Local | Role::Temporary | Role::Result => true,
        Role::Step | Role::InitialStep => false,
        Role::Action | Role::StoredAction | Role::Transition => false,
    }
}

/// What a FUNCTION answers may be assigned, and may not control a FOR.
pub fn may_control(role: Role) -> bool
    ensures { result ≡ may_control role }
{
    match role {
        Role::Input | Role::Constant | Role::Result => false,
        Role::Output | Role::Local | Role::Temporary => true,
        Role::Step | Role::InitialStep => false,
        Role::Action | Role::StoredAction | Role::Transition => false,
    }
}

/// Constants have no cells, nor have transitions and actions that are not stored.
pub fn has_cell(role: Role) -> bool
    ensures { result ≡ has_cell role }
{
    match role {
        Role::Constant | Role::Action | Role::Transition => false,
        Role::Input | Role::Output | Role::Local | Role::Temporary | Role::Result => true,
        Role::Step | Role::InitialStep | Role::StoredAction => true,
    }
}

/// Whether a name is that of an action that some step sets or resets.
pub fn is_stored_action(role: Role) -> bool
    ensures { result ≡ is_stored_action role }
{
    matches!(role, Role::StoredAction)
}

/// Whether a step is active in the first run.
pub fn active_first(role: Role) -> Value
    ensures { result ≡ active_first role }
{
    match role {
        Role::InitialStep => 1,
        _ => 0,
    }
}

/// Whether a variable is a constant.
pub fn is_constant(role: Role) -> bool
    ensures { result ≡ is_constant role }
{
    matches!(role, Role::Constant)
}

/// Whether a variable's cells stand before those of all others.
pub fn is_front(of_function: bool, role: Role) -> bool
    ensures { result ≡ is_front of_function role }
{
    if of_function {
        role.is_input() || role.is_result()
    } else {
        !is_stored_action(role)
    }
}

/// Whether variables begin anew in each run.
pub fn is_temporary(role: Role) -> bool
    ensures { result ≡ is_temporary role }
{
    matches!(role, Role::Temporary)
}

// The part of a program's cells that variables are.
fn part_of(role: Role) -> Part
    ensures { result ≡ part_of role }
{
    match role {
        Role::Input => Part::Input,
        Role::Output => Part::Output,
        _ => Part::Local,
    }
}

/// The part of a program's cells that variables are, inside an instance or not.
pub fn part_in(inside: bool, role: Role) -> Part
    ensures { result ≡ part_in inside role }
{
    if inside { Part::Local } else { part_of(role) }
}
