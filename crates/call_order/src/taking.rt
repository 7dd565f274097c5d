// The order of what uses one another.
ghost use Rattle.std.specs.Prelude.{◌≡◌, ℕ, ◌≤◌, length, map, IfOk, OnOk};
ghost use Rattle.call_order.specs.Uses.{graph_of, order_of};
ghost use Rattle.call_order.specs.Users.{times, missing_at, HasUsers, GainsUser, MissesLess, GetReady, IsReadyAtFirst};

use std::alloc::{AllocError, Global};
use std::collections::BTreeSet;

/// Enters a number among the users of each number that it uses.
fn add_user(user: usize, used: &[usize], users: &mut [Vec<usize>]) -> Result<(), AllocError>
    ensures { OnOk result (GainsUser user used.now (graph_of users.old) (graph_of users.new)) }
{
    for number in used {
        let number = *number;
        if number < users.len() {
            users[number].push(user)?;
        }
    }
    Ok(())
}

/// For each number those that use it, as often as they do.
pub fn users_of(alloc: Global, uses: &[Vec<usize>]) -> Result<Vec<Vec<usize>>, AllocError>
    ensures len { IfOk result (λ users. length users.items ≡ length uses.now) }
    ensures users { IfOk result (λ users. HasUsers (graph_of uses.now) (graph_of users.items)) }
{
    let mut users = Vec::new(alloc);
    for _ in 0..uses.len() {
        users.push(Vec::new(alloc))?;
    }
    for (user, used) in uses.iter().enumerate() {
        add_user(user, used, &mut users)?;
    }
    Ok(users)
}

/// How many uses each number misses before any is taken.
fn missing_at_first(alloc: Global, uses: &[Vec<usize>]) -> Result<Vec<usize>, AllocError>
    ensures { IfOk result (λ missing. missing.items ≡ map (λ v. length v.items) uses.now) }
{
    let mut missing = Vec::new(alloc);
    for used in uses {
        missing.push(used.len())?;
    }
    Ok(missing)
}

/// The numbers that use nothing.
fn ready_at_first(alloc: Global, uses: &[Vec<usize>]) -> Result<BTreeSet<usize>, AllocError>
    ensures { IfOk result (λ ready. IsReadyAtFirst (graph_of uses.now) ready.keys) }
{
    let mut ready = BTreeSet::new(alloc);
    for (number, used) in uses.iter().enumerate() {
        if used.is_empty() {
            ready.insert(number)?;
        }
    }
    Ok(ready)
}

/// Lets each user miss one use less, and makes those ready that miss none any more.
fn release(
    users: &[usize],
    missing: &mut [usize],
    ready: &mut BTreeSet<usize>,
) -> Result<(), AllocError>
    requires { (k : ℕ) → times k users.now ≤ missing_at missing.old k }
    ensures missing { OnOk result (MissesLess users.now missing.old missing.new) }
    ensures ready { OnOk result (GetReady users.now missing.new ready.old.keys ready.new.keys) }
{
    for user in users {
        let user = *user;
        missing[user] -= 1;
        if missing[user] == 0 {
            ready.insert(user)?;
        }
    }
    Ok(())
}

/// The order: again and again the first number that is not taken yet, and uses only numbers that are taken. It has
/// fewer numbers than there are where some are never taken, as those that reach themselves.
pub fn order(alloc: Global, uses: &[Vec<usize>]) -> Result<Vec<usize>, AllocError>
    ensures { IfOk result (λ numbers. numbers.items ≡ order_of (graph_of uses.now)) }
{
    let users = users_of(alloc, uses)?;
    let mut missing = missing_at_first(alloc, uses)?;
    let mut ready = ready_at_first(alloc, uses)?;
    let mut taken = Vec::new(alloc);
    for _ in 0..uses.len() {
        let Some(number) = ready.pop_first() else {
            break;
        };
        taken.push(number)?;
        release(&users[number], &mut missing, &mut ready)?;
    }
    Ok(taken)
}
