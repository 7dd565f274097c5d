// Whether a literal holds behind every row of a set.
use clause_core::Lit;
use cone_search::{Asked, ConeSearch};
use near_runs::NearRuns;
use std::alloc::AllocError;

// Adds the whole cones below literals, and says whether anything of them was new.
fn widen(cone: &mut ConeSearch, failed: &[Lit]) -> Result<bool, AllocError> {
    let mut more = false;
    for lit in failed {
        let is_new = cone.widen(lit.variable)?;
        more |= is_new;
    }
    Ok(more)
}

/// Asks whether a literal holds, in a cone that is widened where the base's values do not do outside of it. Where it fails, runs
/// stand behind the question, and it fails in the first lane.
pub(crate) fn ask(
    cone: &mut ConeSearch,
    near: &mut NearRuns,
    goal: Lit,
    budget: u64,
) -> Result<Asked, AllocError> {
    cone.load_cone(goal.variable)?;
    for _ in 0..u64::MAX {
        let asked = cone.ask(goal, budget)?;
        if asked != Asked::Fails {
            return Ok(asked);
        }
        near.run_near(cone.bits())?;
        if near.failed().is_empty() {
            return Ok(Asked::Fails);
        }
        if !widen(cone, near.failed())? {
            break;
        }
    }
    Ok(Asked::Unknown)
}
