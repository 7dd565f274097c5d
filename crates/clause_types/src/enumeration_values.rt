// The values of a program's enumerations by their names.
ghost use Rattle.std.specs.Prelude.{◌≡◌, ℕ, List, option_map, IfOk};
ghost use Rattle.std.specs.Str.{bytes_eq};
ghost use Rattle.indexmap.specs.IndexMap.{get_by};
ghost use Rattle.plc_types.specs.Enumerations.{place_of_name};
ghost use Rattle.program_tree.specs.View.{texts_view, lists_of_texts};
ghost use Rattle.clause_types.specs.Sides.{whole_value, kept_or, FindsValues};

use expr_types::valued;
use indexmap::IndexMap;
use plc_types::Value;
use std::alloc::{AllocError, Global};
use typing::Meaning;

/// A value of an enumeration: the number of its type, and its own.
#[derive(Clone, Copy)]
pub struct EnumerationValue {
    pub kind: usize,
    pub value: Value,
}

// What names stand for as values.
pub(crate) type Values<'p> = IndexMap<&'p str, EnumerationValue>;

// The first value of a name.
pub(crate) fn find_value(found: &Values<'_>, name: &str) -> Option<EnumerationValue>
    ensures { result ≡ get_by (λ n. bytes_eq name.now n.now) found.now }
{
    found.get(name).copied()
}

// What a value stands for.
fn whole_value(value: EnumerationValue) -> Meaning
    ensures { result ≡ whole_value value }
{
    valued(value.kind, value.value, true)
}

// What the first value of a name stands for.
pub(crate) fn find_meaning(found: &Values<'_>, name: &str) -> Option<Meaning>
    ensures { result ≡ option_map whole_value (get_by (λ n. bytes_eq name.now n.now) found.now) }
{
    match find_value(found, name) {
        None => None,
        Some(value) => Some(whole_value(value)),
    }
}

// The values of a type, each before those that were found.
fn with_values<'p>(
    found: Values<'p>,
    kind: usize,
    names: &'p [String],
) -> Result<Values<'p>, AllocError>
    ensures { IfOk result (λ more. (text : List ℕ) → get_by (λ name. bytes_eq text name.now) more ≡ kept_or (place_of_name text 0 (texts_view names.now)) kind (get_by (λ name. bytes_eq text name.now) found.entry)) }
{
    let mut more = found;
    for index in (0..names.len()).rev() {
        let value = EnumerationValue {
            kind,
            value: index as Value,
        };
        more.insert(names[index].as_str(), value)?;
    }
    Ok(more)
}

// Of each name the first value of that name.
pub(crate) fn values<'p>(alloc: Global, types: &'p [Vec<String>]) -> Result<Values<'p>, AllocError>
    ensures { IfOk result (λ found. FindsValues found 0 (lists_of_texts types.now)) }
{
    let mut found = IndexMap::new(alloc);
    for kind in (0..types.len()).rev() {
        found = with_values(found, kind, &types[kind])?;
    }
    Ok(found)
}
