// What the POUs of a file break, and which they use.
ghost use Rattle.std.specs.Prelude.{◌≡◌, ◌++◌, OnOk, IfOk, map};
ghost use Rattle.call_order.specs.Uses.{graph_of};
ghost use Rattle.rules.specs.Rules.{earlier, first_in};
ghost use Rattle.source_tree.specs.SyntaxView.{body_view, file_view};
ghost use Rattle.naming.specs.Broken.{in_pou_scope, in_pou, in_pous};
ghost use Rattle.naming.specs.Circles.{blocks_used, calls_in_body, uses_of};
ghost use Rattle.naming.specs.FileScope.{pous_of};
ghost use Rattle.pou_scope.specs.NamesView.{file_in, pou_in, pous_named, scopes_named, seens_named};
ghost use Rattle.pou_scope.specs.AllSeen.{seen_in};
ghost use Rattle.rules.specs.Outcomes.{outcome_of};
ghost use Rattle.naming.specs.Scopes.{scope_of};
ghost use Rattle.naming.specs.ScopeView.{pous_view};

use file_scope::FileScope;
use name_uses::{Scope, walk_body};
use pou_scope::{Names, NamesOfPou, append_blocks, names_of_pou, walk_declarations};
use rules::{Outcome, Refusal};
use source_tree::Pou;
use std::alloc::{AllocError, Global};
use use_numbers::UseNumbers;

/// Which POUs of a file are whole, which POUs each uses, and the numbers of the file's uses of names.
#[derive(Drop)]
pub struct Judged {
    pub wholes: Vec<bool>,
    pub uses: Vec<Vec<usize>>,
    pub numbers: UseNumbers,
}

/// The names of each POU of a file.
pub fn all_names<'a>(
    alloc: Global,
    file: &FileScope<'_>,
    pous: &[&'a Pou],
) -> Result<Vec<NamesOfPou<'a>>, AllocError>
    ensures pous { IfOk result (λ all. pous_named all.items ≡ pous_view pous.now) }
    ensures scopes { IfOk result (λ all. scopes_named all.items ≡ map scope_of (pous_view pous.now)) }
    ensures seen { IfOk result (λ all. seens_named all.items ≡ map (seen_in (file_view file.now.types.names.file.now)) (pous_view pous.now)) }
{
    let mut all = Vec::new(alloc);
    for pou in pous {
        all.push(names_of_pou(alloc, file, pou)?)?;
    }
    Ok(all)
}

// What a POU breaks, and which POUs it uses. Keeps the numbers of its uses of names.
fn judge_pou(
    alloc: Global,
    scope: &Scope<'_, '_>,
    numbers: &mut UseNumbers,
) -> Result<(Outcome, Vec<usize>), AllocError>
    ensures judged { let f = file_in scope.now.names in let p = pou_in scope.now.names in IfOk result (λ r. r.0 ≡ outcome_of (in_pou_scope f p (body_view scope.now.names.own.now.pou.now.body))) }
    ensures uses { let f = file_in scope.now.names in let p = pou_in scope.now.names in IfOk result (λ r. r.1.items ≡ blocks_used f p p.variables ++ calls_in_body f (body_view scope.now.names.own.now.pou.now.body)) }
{
    let names = &scope.names;
    let mut outcome = names.own.once;
    walk_declarations(names, &mut outcome, numbers);
    let mut uses = Vec::new(alloc);
    append_blocks(names, &mut uses)?;
    walk_body(
        alloc,
        scope,
        &names.own.pou.body,
        &mut outcome,
        numbers,
        &mut uses,
    )?;
    Ok((outcome, uses))
}

/// Keeps what the POUs of a file break, where it comes first.
pub fn judge_pous<'a, 'f>(
    alloc: Global,
    file: &'a FileScope<'f>,
    all: &'a [NamesOfPou<'f>],
    first: &mut Option<Refusal>,
) -> Result<Judged, AllocError>
    requires pous { pous_named all.now ≡ pous_of (file_view file.now.types.names.file.now) }
    requires scopes { scopes_named all.now ≡ map scope_of (pous_of (file_view file.now.types.names.file.now)) }
    requires seen { seens_named all.now ≡ map (seen_in (file_view file.now.types.names.file.now)) (pous_of (file_view file.now.types.names.file.now)) }
    ensures broken { let f = file_view file.now.types.names.file.now in OnOk result (first.new ≡ earlier first.old (first_in (in_pous f (pous_of f)))) }
    ensures wholes { let f = file_view file.now.types.names.file.now in IfOk result (λ judged. judged.wholes.items ≡ map (λ p. (in_pou f p).whole) (pous_of f)) }
    ensures uses { let f = file_view file.now.types.names.file.now in IfOk result (λ judged. graph_of judged.uses.items ≡ uses_of f) }
{
    let mut wholes = Vec::new(alloc);
    let mut all_uses = Vec::new(alloc);
    let mut numbers = UseNumbers::new(alloc);
    for own in all {
        let names = Names { file, own };
        let (outcome, uses) = judge_pou(alloc, &Scope { names, pous: all }, &mut numbers)?;
        *first = Refusal::earlier(*first, outcome.first);
        wholes.push(outcome.whole)?;
        all_uses.push(uses)?;
    }
    Ok(Judged {
        wholes,
        uses: all_uses,
        numbers,
    })
}
