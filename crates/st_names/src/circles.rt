// POUs that use themselves, also through others.
ghost use Rattle.std.specs.Prelude.{◌≡◌, ◌↔◌, IsTrue, OnOk, map, false, unwrap_or};
ghost use Rattle.std.specs.List.{slice_get};
ghost use Rattle.call_order.specs.Uses.{Graph, graph_of, HasCircles, Reaches};
ghost use Rattle.rules.specs.Rules.{first_in};
ghost use Rattle.source_tree.specs.SyntaxView.{file_view};
ghost use Rattle.naming.specs.Broken.{in_pou, broken_names};
ghost use Rattle.naming.specs.Circles.{uses_of, IsBroken};
ghost use Rattle.naming.specs.FileScope.{pous_of};
ghost use Rattle.naming.specs.FirstOf.{IsFirstOf};
ghost use Rattle.naming.specs.ScopeView.{pous_view};

use crate::judged::Judged;
use call_order::{circular_uses, stands_in_circle};
use file_scope::circular;
use rules::Refusal;
use source_tree::{Pou, SourceFile};
use std::alloc::{AllocError, Global};

// Whether a POU uses itself and is whole otherwise.
fn is_in_circle(judged: &Judged, circles: &[Vec<usize>], number: usize) -> bool
    ensures { (g : Graph) → HasCircles g (graph_of circles.now) → IsTrue result ↔ (IsTrue (unwrap_or (slice_get judged.now.wholes.items number) false) × Reaches g number number) }
{
    judged.wholes.get(number).copied().unwrap_or(false) && stands_in_circle(circles, number)
}

/// Keeps N3 at the first POU that uses itself and is whole otherwise, where it comes first.
pub fn walk_circles(
    alloc: Global,
    file: &SourceFile,
    pous: &[&Pou],
    judged: &Judged,
    first: &mut Option<Refusal>,
) -> Result<(), AllocError>
    requires pous { pous_view pous.now ≡ pous_of (file_view file.now) }
    requires wholes { judged.now.wholes.items ≡ map (λ p. (in_pou (file_view file.now) p).whole) (pous_of (file_view file.now)) }
    requires uses { graph_of judged.now.uses.items ≡ uses_of (file_view file.now) }
    requires broken { first.old ≡ first_in (broken_names (file_view file.now)) }
    ensures { OnOk result (IsFirstOf (IsBroken (file_view file.now)) first.new) }
{
    let circles = circular_uses(alloc, &judged.uses)?;
    for (number, pou) in pous.iter().enumerate() {
        if is_in_circle(judged, &circles, number) {
            *first = Refusal::earlier(*first, circular(&pou.name).first);
        }
    }
    Ok(())
}
