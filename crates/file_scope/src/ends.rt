// Where the types of a file lead to.
ghost use Rattle.std.specs.Prelude.{◌≡◌, ◌<◌, ◌==◌, ℕ, false, map, length, IfOk};
ghost use Rattle.std.specs.List.{slice_index_or, list_any};
ghost use Rattle.source_tree.specs.SyntaxView.{file_view};
ghost use Rattle.naming.specs.Ends.{Leads};
ghost use Rattle.naming.specs.FileScope.{types_of};
ghost use Rattle.naming.specs.ScopeView.{types_view};
ghost use Rattle.naming.specs.Types.{step_from, end_of};

use crate::file_names::FileNames;
use source_tree::TypeDeclaration;
use std::alloc::{AllocError, Global};

// So many times the way is doubled: the number of types in a text is below 2 ^ DOUBLINGS.
const DOUBLINGS: usize = 20;

// One step from each type.
fn first_steps(
    alloc: Global,
    names: &FileNames<'_>,
    types: &[&TypeDeclaration],
) -> Result<Vec<usize>, AllocError>
    requires { types_view types.now ≡ types_of (file_view names.now.file.now) }
    ensures led { IfOk result (λ ends. Leads ends.items (step_from (file_view names.now.file.now))) }
    ensures len { IfOk result (λ ends. length ends.items ≡ length types.now) }
{
    let mut ends = Vec::new(alloc);
    for (place, declaration) in types.iter().enumerate() {
        let next = names.named_type(&declaration.specification);
        ends.push(next.unwrap_or(place))?;
    }
    Ok(ends)
}

/// Where a type leads to, by the ends of all.
pub fn end_at(ends: &[usize], number: usize) -> usize
    ensures { result ≡ slice_index_or ends.now number number }
{
    ends.get(number).copied().unwrap_or(number)
}

// The way from each type, and from there the way on.
fn doubled(alloc: Global, ends: &[usize]) -> Result<Vec<usize>, AllocError>
    ensures { IfOk result (λ more. more.items ≡ map (λ e. slice_index_or ends.now e e) ends.now) }
{
    ends.iter().map(|end| end_at(ends, *end)).collect(alloc)
}

/// The ends of the ways of all types.
pub fn ends(
    alloc: Global,
    names: &FileNames<'_>,
    types: &[&TypeDeclaration],
) -> Result<Vec<usize>, AllocError>
    requires { types_view types.now ≡ types_of (file_view names.now.file.now) }
    ensures led { IfOk result (λ ends. Leads ends.items (end_of (file_view names.now.file.now))) }
    ensures len { IfOk result (λ ends. length ends.items ≡ length types.now) }
{
    let mut ends = first_steps(alloc, names, types)?;
    for _doubling in 0..DOUBLINGS {
        ends = doubled(alloc, &ends)?;
    }
    Ok(ends)
}

/// Whether each type is at the end of some way.
pub fn reached(alloc: Global, ends: &[usize]) -> Result<Vec<bool>, AllocError>
    ensures { IfOk result (λ marks. (t : ℕ) → t < length ends.now → slice_index_or marks.items t false ≡ list_any (λ e. e == t) ends.now) }
{
    let mut marks = vec![in alloc; false; ends.len()]?;
    for end in ends {
        if let Some(mark) = marks.get_mut(*end) {
            *mark = true;
        }
    }
    Ok(marks)
}

/// Whether a number is marked.
pub fn is_marked(marks: &[bool], number: usize) -> bool
    ensures { result ≡ slice_index_or marks.now number false }
{
    marks.get(number).copied().unwrap_or(false)
}
