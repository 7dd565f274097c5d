// What the declarations of a POU break, and the blocks of its instances.
ghost use Rattle.std.specs.Prelude.{◌≡◌, ◌++◌, map, OnOk};
ghost use Rattle.naming.specs.Broken.{in_declarations, instance_of};
ghost use Rattle.naming.specs.Circles.{blocks_used};
ghost use Rattle.pou_scope.specs.AllSeen.{blocks_seen};
ghost use Rattle.pou_scope.specs.NamesView.{file_in, pou_in};
ghost use Rattle.naming.specs.ScopeView.{seen_if, seen_view};
ghost use Rattle.rules.specs.Outcomes.{outcome_of, both};

use crate::names::Names;
use naming::{Declared, append_number};
use rules::Outcome;
use std::alloc::AllocError;
use use_numbers::UseNumbers;

/// Keeps what the declarations of a POU break, and the numbers of the names that they use.
#[tactic(auto, using(rules::proofs::Outcomes::both_on, rules::proofs::Outcomes::both_ok))]
pub fn walk_declarations(names: &Names<'_, '_>, outcome: &mut Outcome, numbers: &mut UseNumbers)
    ensures { outcome.new ≡ both outcome.old (outcome_of (in_declarations (file_in names.now) (pou_in names.now) 0 (pou_in names.now).variables)) }
{
    for (number, variable) in names.own.variables.iter().enumerate() {
        *outcome = outcome.and(names.declaration(numbers, number, variable));
    }
}

/// The block of an instance whose declaration breaks no rule.
pub fn instance_of(seen: Option<&Declared<'_>>) -> Option<usize>
    ensures { result ≡ instance_of (seen_if seen.entry) }
{
    match seen {
        Some(seen) if seen.whole => seen.block,
        _ => None,
    }
}

// Appends the blocks of those of these instances whose declarations break no rule.
fn append_seen(all: &[Declared<'_>], blocks: &mut Vec<usize>) -> Result<(), AllocError>
    ensures { OnOk result (blocks.new.items ≡ blocks.old.items ++ blocks_seen (map seen_view all.now)) }
{
    for seen in all {
        append_number(blocks, instance_of(Some(seen)))?;
    }
    Ok(())
}

/// Appends the blocks of instances whose declarations break no rule.
pub fn append_blocks(names: &Names<'_, '_>, blocks: &mut Vec<usize>) -> Result<(), AllocError>
    ensures { OnOk result (blocks.new.items ≡ blocks.old.items ++ blocks_used (file_in names.now) (pou_in names.now) (pou_in names.now).variables) }
{
    append_seen(&names.own.variables, blocks)
}
