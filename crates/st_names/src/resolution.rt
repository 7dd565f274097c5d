// From a file to its POUs, with every name bound.
ghost use Rattle.std.specs.Prelude.{◌≡◌, ◌++◌, [], OnOk, IfOk, IfErr, IsTrue, length, map, count_by, ℕ};
ghost use Rattle.std.specs.List.{position_from};
ghost use Rattle.call_order.specs.Uses.{graph_of, order_of, Reaches};
ghost use Rattle.rules.specs.Rules.{first_in};
ghost use Rattle.source_tree.specs.SyntaxView.{items_view, pou_view, file_view};
ghost use Rattle.file_bindings.specs.Bindings.{AreBindings};
ghost use Rattle.st_names.specs.Bound.{are_pous_typed, places_from, program_number, IsFaultOf};
ghost use Rattle.naming.specs.Broken.{is_program_pou, in_pou, not_one, names_twice, broken_names};
ghost use Rattle.naming.specs.Circles.{uses_of, IsBroken};
ghost use Rattle.naming.specs.FileScope.{types_of, pous_of, names_of};
ghost use Rattle.naming.specs.FirstOf.{IsFirstOf};
ghost use Rattle.pou_scope.specs.NamesView.{pous_named, scopes_named, seens_named};
ghost use Rattle.pou_scope.specs.AllSeen.{seen_in};
ghost use Rattle.naming.specs.Scopes.{scope_of};
ghost use Rattle.naming.specs.ScopeView.{types_view, pous_view};
ghost use Rattle.naming.specs.Types.{are_whole_types};

use crate::circles::walk_circles;
use crate::judged::{Judged, all_names, judge_pous};
use call_order::order;
use file_bindings::{Bindings, Resolved};
use file_scope::{
    Declarations, FileScope, file_scope, list_declarations, walk_results, walk_types,
};
use pou_scope::NamesOfPou;
use rules::{Fault, Refusal, Rule};
use source_tree::{Item, Pou, PouType, SourceFile, TypeDeclaration};
use std::alloc::{AllocError, Global};

// Whether a POU is a PROGRAM.
fn is_program(pou: &Pou) -> bool
    ensures { result ≡ is_program_pou (pou_view pou.now) }
{
    matches!(&pou.pou_type, PouType::Program)
}

// The number of the first PROGRAM.
fn program_number(pous: &[&Pou]) -> Option<usize>
    ensures { result ≡ position_from is_program_pou 0 (pous_view pous.now) }
{
    for (number, pou) in pous.iter().enumerate() {
        if is_program(pou) {
            return Some(number);
        }
    }
    None
}

// How many PROGRAMs there are.
fn program_count(pous: &[&Pou]) -> usize
    ensures { result ≡ count_by is_program_pou (pous_view pous.now) }
{
    let mut count = 0;
    for pou in pous {
        if is_program(pou) {
            count += 1;
        }
    }
    count
}

// N5 at 0, where there is not one PROGRAM.
fn not_one(pous: &[&Pou]) -> Option<Refusal>
    ensures { result ≡ first_in (not_one (pous_view pous.now)) }
{
    if program_count(pous) == 1 {
        return None;
    }
    Some(Refusal {
        rule: Rule::NotOneProgram,
        at: 0,
    })
}

// The places of POUs among the items of a file.
fn places(alloc: Global, items: &[Item]) -> Result<Vec<usize>, AllocError>
    ensures { IfOk result (λ places. places.items ≡ places_from 0 (items_view items.now)) }
{
    let mut places = Vec::new(alloc);
    for (place, item) in items.iter().enumerate() {
        if let Item::Pou(_) = item {
            places.push(place)?;
        }
    }
    Ok(places)
}

// The order of POUs that use one another. Keeps N3 at one that uses itself, where it comes first.
fn order_of(
    alloc: Global,
    file: &SourceFile,
    pous: &[&Pou],
    judged: &Judged,
    first: &mut Option<Refusal>,
) -> Result<Vec<usize>, AllocError>
    requires pous { pous_view pous.now ≡ pous_of (file_view file.now) }
    requires wholes { judged.now.wholes.items ≡ map (λ p. (in_pou (file_view file.now) p).whole) (pous_of (file_view file.now)) }
    requires uses { graph_of judged.now.uses.items ≡ uses_of (file_view file.now) }
    requires broken { first.old ≡ first_in (broken_names (file_view file.now)) }
    ensures order { IfOk result (λ numbers. numbers.items ≡ order_of (uses_of (file_view file.now))) }
    ensures broken { OnOk result (IsFirstOf (IsBroken (file_view file.now)) first.new) }
{
    let numbers = order(alloc, &judged.uses)?;
    if numbers.as_slice().len() != pous.len() {
        walk_circles(alloc, file, pous, judged, first)?;
    }
    Ok(numbers)
}

// Keeps what the types and POUs of a file break, where it comes first.
fn judge_file<'a, 'f>(
    alloc: Global,
    scope: &'a FileScope<'f>,
    list: &Declarations<'_>,
    all: &'a [NamesOfPou<'f>],
    first: &mut Option<Refusal>,
) -> Result<Judged, AllocError>
    requires types { types_view list.now.types.items ≡ types_of (file_view scope.now.types.names.file.now) }
    requires pous { pous_view list.now.pous.items ≡ pous_of (file_view scope.now.types.names.file.now) }
    requires named { pous_named all.now ≡ pous_of (file_view scope.now.types.names.file.now) }
    requires scopes { scopes_named all.now ≡ map scope_of (pous_of (file_view scope.now.types.names.file.now)) }
    requires seen { seens_named all.now ≡ map (seen_in (file_view scope.now.types.names.file.now)) (pous_of (file_view scope.now.types.names.file.now)) }
    requires once { let f = file_view scope.now.types.names.file.now in first.old ≡ first_in (not_one (pous_of f) ++ names_twice [] (names_of f)) }
    ensures broken { OnOk result (first.new ≡ first_in (broken_names (file_view scope.now.types.names.file.now))) }
    ensures wholes { let f = file_view scope.now.types.names.file.now in IfOk result (λ judged. judged.wholes.items ≡ map (λ p. (in_pou f p).whole) (pous_of f)) }
    ensures uses { let f = file_view scope.now.types.names.file.now in IfOk result (λ judged. graph_of judged.uses.items ≡ uses_of f) }
{
    // The POUs come first: the blocks of the prelude have places of their own text, which may be those of names in the file's types.
    let mut of_pous = None;
    let mut judged = judge_pous(alloc, scope, all, &mut of_pous)?;
    let numbers = &mut judged.numbers;
    walk_types(alloc, scope, numbers, &list.types, first)?;
    walk_results(scope, numbers, &list.pous, first);
    *first = Refusal::earlier(*first, of_pous);
    Ok(judged)
}

// What is kept of a file's scope.
fn bindings_of<'f>(
    scope: FileScope<'f>,
    names: Vec<NamesOfPou<'f>>,
    types: Vec<&'f TypeDeclaration>,
    judged: Judged,
    places: Vec<usize>,
    order: Vec<usize>,
    program: Option<usize>,
) -> Bindings<'f>
    requires scopes { scopes_named names.items ≡ map scope_of (pous_of (file_view scope.types.names.file.now)) }
    requires seen { seens_named names.items ≡ map (seen_in (file_view scope.types.names.file.now)) (pous_of (file_view scope.types.names.file.now)) }
    requires types { types_view types.items ≡ types_of (file_view scope.types.names.file.now) }
    requires places { places.items ≡ places_from 0 (file_view scope.types.names.file.now) }
    requires uses { graph_of judged.uses.items ≡ uses_of (file_view scope.types.names.file.now) }
    requires order { order.items ≡ order_of (uses_of (file_view scope.types.names.file.now)) }
    requires program { program ≡ program_number (file_view scope.types.names.file.now) }
    ensures { AreBindings (file_view scope.entry.types.names.file.now) result }
{
    let declared = scope.types;
    let file = declared.names;
    Bindings {
        names,
        types,
        numbers: judged.numbers,
        places,
        uses: judged.uses,
        order,
        program,
        table: file.table,
        ends: declared.ends,
    }
}

// The first of all that a file breaks, and its bindings.
fn walk_file(
    alloc: Global,
    file: &SourceFile,
) -> Result<(Option<Refusal>, Bindings<'_>), AllocError>
    ensures bound { IfOk result (λ r. AreBindings (file_view file.now) r.1) }
    ensures broken { IfOk result (λ r. IsFirstOf (IsBroken (file_view file.now)) r.0) }
{
    let list = list_declarations(alloc, file)?;
    let mut first = not_one(&list.pous);
    let scope = file_scope(alloc, file, &list, &mut first)?;
    let all = all_names(alloc, &scope, &list.pous)?;
    let judged = judge_file(alloc, &scope, &list, &all, &mut first)?;
    let numbers = order_of(alloc, file, &list.pous, &judged, &mut first)?;
    let program = program_number(&list.pous);
    let places = places(alloc, &file.items)?;
    let bindings = bindings_of(scope, all, list.types, judged, places, numbers, program);
    Ok((first, bindings))
}

/// The POUs of a file with every name bound, or the first rule on names that the file breaks.
pub fn resolve(alloc: Global, file: &SourceFile) -> Result<Resolved<'_>, Fault>
    ensures refused { IfErr result (IsFaultOf (file_view file.now)) }
    ensures kept { OnOk result (broken_names (file_view file.now) ≡ []) }
    ensures ordered { OnOk result (length (order_of (uses_of (file_view file.now))) ≡ length (pous_of (file_view file.now))) }
    ensures acyclic { OnOk result ((k : ℕ) → ¬ (Reaches (uses_of (file_view file.now)) k k)) }
    ensures file { IfOk result (λ r. file_view r.file.now ≡ file_view file.now) }
    ensures types { OnOk result (IsTrue (are_whole_types (file_view file.now) (types_of (file_view file.now)))) }
    ensures typed { OnOk result (IsTrue (are_pous_typed (file_view file.now))) }
{
    let (first, bindings) = walk_file(alloc, file)?;
    match first {
        Some(refusal) => Err(Fault::Refused(refusal)),
        None => Ok(Resolved::new(file, bindings)),
    }
}
