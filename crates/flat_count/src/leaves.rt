// Whether statements may leave the list in which they stand.
ghost use Rattle.std.specs.Prelude.{◌≡◌, ◌||◌};
ghost use Rattle.program_tree.specs.Leaving.{can_exit, can_exit_all, can_exit_choices, can_exit_entries, can_exit_actions, can_return, can_return_all, can_return_choices, can_return_entries, can_return_actions};
ghost use Rattle.program_tree.specs.View.{stmt_view, stmts_view, choices_view, entries_view, actions_view};

use program_tree::{TypedAction, TypedArm, TypedEntry, TypedStmt};

/// Whether statements may leave the list in which they stand: by an EXIT, which ends the innermost FOR around them, and by a RETURN,
/// which ends the innermost body of its own.
#[derive(Clone, Copy)]
pub struct Leaves {
    pub exits: bool,
    pub returns: bool,
}

fn either(a: Leaves, b: Leaves) -> Leaves
    ensures exits { result.exits ≡ (a.exits || b.exits) }
    ensures returns { result.returns ≡ (a.returns || b.returns) }
{
    Leaves {
        exits: a.exits || b.exits,
        returns: a.returns || b.returns,
    }
}

/// Whether some statements may leave their list. The walk ends at the first statement by which they may do so in both ways.
#[cycle(leaving)]
pub fn leaving_all(list: &[TypedStmt]) -> Leaves
    ensures exits { result.exits ≡ can_exit_all (stmts_view list.now) }
    ensures returns { result.returns ≡ can_return_all (stmts_view list.now) }
{
    let mut found = Leaves {
        exits: false,
        returns: false,
    };
    for stmt in list {
        found = either(found, leaving(stmt));
        if found.exits && found.returns {
            return found;
        }
    }
    found
}

/// Whether a statement may leave the list in which it stands.
#[cycle(leaving)]
pub fn leaving(stmt: &TypedStmt) -> Leaves
    ensures exits { result.exits ≡ can_exit (stmt_view stmt.now) }
    ensures returns { result.returns ≡ can_return (stmt_view stmt.now) }
{
    match stmt {
        TypedStmt::Assign(_, _) => Leaves {
            exits: false,
            returns: false,
        },
        TypedStmt::CallBlock { .. } => Leaves {
            exits: false,
            returns: false,
        },
        TypedStmt::If(arms, other) => either(leaving_arms(arms), leaving_all(other)),
        TypedStmt::Case(_, _, entries, other) => {
            either(leaving_entries(entries), leaving_all(other))
        }
        TypedStmt::For(_, body) => Leaves {
            exits: false,
            returns: leaving_all(body).returns,
        },
        TypedStmt::Chart(_, actions, _) => leaving_actions(actions),
        TypedStmt::Exit => Leaves {
            exits: true,
            returns: false,
        },
        TypedStmt::Return => Leaves {
            exits: false,
            returns: true,
        },
        TypedStmt::Body(body) => Leaves {
            exits: leaving_all(body).exits,
            returns: false,
        },
    }
}

#[cycle(leaving)]
fn leaving_arms(arms: &[TypedArm]) -> Leaves
    ensures exits { result.exits ≡ can_exit_choices (choices_view arms.now) }
    ensures returns { result.returns ≡ can_return_choices (choices_view arms.now) }
{
    let mut found = Leaves {
        exits: false,
        returns: false,
    };
    for arm in arms {
        found = either(found, leaving_all(&arm.body));
        if found.exits && found.returns {
            return found;
        }
    }
    found
}

#[cycle(leaving)]
fn leaving_entries(entries: &[TypedEntry]) -> Leaves
    ensures exits { result.exits ≡ can_exit_entries (entries_view entries.now) }
    ensures returns { result.returns ≡ can_return_entries (entries_view entries.now) }
{
    let mut found = Leaves {
        exits: false,
        returns: false,
    };
    for entry in entries {
        found = either(found, leaving_all(&entry.body));
        if found.exits && found.returns {
            return found;
        }
    }
    found
}

#[cycle(leaving)]
fn leaving_actions(actions: &[TypedAction]) -> Leaves
    ensures exits { result.exits ≡ can_exit_actions (actions_view actions.now) }
    ensures returns { result.returns ≡ can_return_actions (actions_view actions.now) }
{
    let mut found = Leaves {
        exits: false,
        returns: false,
    };
    for action in actions {
        found = either(found, leaving_all(&action.body));
        if found.exits && found.returns {
            return found;
        }
    }
    found
}
