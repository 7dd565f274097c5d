// What the declarations of types break, and the types of results.
ghost use Rattle.std.specs.Prelude.{◌≡◌, OnOk, ◌&&◌, is_some, length, if◌then◌else◌};
ghost use Rattle.rules.specs.Rules.{earlier, first_in};
ghost use Rattle.source_tree.specs.SyntaxView.{type_declaration_view, file_view};
ghost use Rattle.naming.specs.Broken.{circular, in_types, in_results};
ghost use Rattle.naming.specs.FileScope.{types_of, pous_of};
ghost use Rattle.rules.specs.Judgements.{ok};
ghost use Rattle.rules.specs.Outcomes.{outcome_of};
ghost use Rattle.naming.specs.ScopeView.{types_view, pous_view};
ghost use Rattle.naming.specs.Types.{named_type};

use crate::ends::{is_marked, reached};
use crate::file_names::FileNames;
use crate::refusals::circular;
use crate::scope_of_file::FileScope;
use rules::{Outcome, Refusal};
use source_tree::{Pou, TypeDeclaration};
use std::alloc::{AllocError, Global};
use use_numbers::UseNumbers;

// N3 at a type that is there behind all steps of some way, and still leads on.
fn circle_of(names: &FileNames<'_>, is_reached: bool, declaration: &TypeDeclaration) -> Outcome
    ensures { let d = type_declaration_view declaration.now in result ≡ outcome_of (if is_some (named_type (file_view names.now.file.now) d.specification) && is_reached then circular d.name else ok) }
{
    if is_reached && names.named_type(&declaration.specification).is_some() {
        return circular(&declaration.name);
    }
    Outcome::ok()
}

/// Keeps what the declarations of types break, where it comes first, and the numbers of the names that they use.
pub fn walk_types(
    alloc: Global,
    scope: &FileScope<'_>,
    numbers: &mut UseNumbers,
    types: &[&TypeDeclaration],
    first: &mut Option<Refusal>,
) -> Result<(), AllocError>
    requires { types_view types.now ≡ types_of (file_view scope.now.types.names.file.now) }
    ensures { let f = file_view scope.now.types.names.file.now in OnOk result (first.new ≡ earlier first.old (first_in (in_types f 0 (types_of f)))) }
{
    let names = &scope.types.names;
    let reached = reached(alloc, &scope.types.ends)?;
    for (number, declaration) in types.iter().enumerate() {
        let is_reached = is_marked(&reached, number);
        let circle = circle_of(names, is_reached, declaration);
        *first = Refusal::earlier(*first, circle.first);
        let judged = scope.specification(numbers, number, &declaration.specification);
        *first = Refusal::earlier(*first, judged.first);
    }
    Ok(())
}

/// Keeps what the types of results break, where it comes first, and the numbers of their names.
pub fn walk_results(
    scope: &FileScope<'_>,
    numbers: &mut UseNumbers,
    pous: &[&Pou],
    first: &mut Option<Refusal>,
)
    requires { pous_view pous.now ≡ pous_of (file_view scope.now.types.names.file.now) }
    ensures { let f = file_view scope.now.types.names.file.now in first.new ≡ earlier first.old (first_in (in_results f (length (types_of f)) (pous_of f))) }
{
    let types = scope.types.ends.as_slice().len();
    for (place, pou) in pous.iter().enumerate() {
        let judged = scope.result(numbers, types + place, &pou.pou_type);
        *first = Refusal::earlier(*first, judged.first);
    }
}
