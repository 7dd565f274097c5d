// The relation that lines state.
ghost use Rattle.std.specs.Prelude.{◌≡◌, List, IfOk};
ghost use Rattle.scan_model.specs.Pairs.{relation_view};
ghost use Rattle.relation_lines.specs.Lines.{LineData};
ghost use Rattle.relation_file.specs.Relations.{relation_of};
ghost use Rattle.relation_file.specs.Gathered.{IsGathered};
ghost use Rattle.candidates.specs.PairView.{old_of, new_of};

use crate::gathered::Gathered;
use crate::listed::candidates_in;
use candidates::Pair;
use scan_model::Relation;
use std::alloc::{AllocError, Global};

/// The relation that lines state of which this was gathered, with its candidates.
pub(crate) fn relation_of(
    alloc: Global,
    pair: &Pair<'_>,
    gathered: Gathered,
) -> Result<Relation, AllocError>
    ensures { (ls : List LineData) → IsGathered (old_of pair.now) (new_of pair.now) ls gathered → IfOk result (λ r. relation_view r ≡ relation_of (old_of pair.now) (new_of pair.now) ls) }
{
    let Gathered {
        depth,
        conflicts,
        equal_faults,
        inputs,
        environment,
        invariants,
        relates,
    } = gathered;
    let depth = depth.unwrap_or(0);
    let conflicts = conflicts.unwrap_or(0);
    let listed = candidates_in(alloc, pair, equal_faults, invariants, relates)?;
    Ok(Relation {
        depth,
        conflicts,
        inputs,
        environment,
        equal_faults,
        candidates: listed.candidates,
        invariants: listed.invariants,
        first_relate: listed.first_relate,
        relates: listed.relates,
    })
}
