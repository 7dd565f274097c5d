// The POUs that are reached from the PROGRAM.
ghost use Rattle.std.specs.Prelude.{◌≡◌, [], ◌∷◌, map, IfOk};
ghost use Rattle.naming.specs.Circles.{uses_of};
ghost use Rattle.source_tree.specs.SyntaxView.{pou_view, file_view};
ghost use Rattle.naming.specs.Broken.{is_program_pou};
ghost use Rattle.naming.specs.FileScope.{pous_of};
ghost use Rattle.typing.specs.Reached.{with_marks, mark_uses, reached, reached_order};

use file_bindings::Resolved;
use source_tree::{Pou, PouType};
use std::alloc::{AllocError, Global};

fn is_program(pou: &Pou) -> bool
    ensures { result ≡ is_program_pou (pou_view pou.now) }
{
    matches!(&pou.pou_type, PouType::Program)
}

// Which POUs are PROGRAMs.
fn programs(alloc: Global, names: &Resolved<'_>) -> Result<Vec<bool>, AllocError>
    ensures { IfOk result (λ marks. marks.items ≡ map is_program_pou (pous_of (file_view names.now.file.now))) }
{
    let mut marks = Vec::new(alloc);
    for number in 0..names.pou_count() {
        marks.push(is_program(names.pou(number)))?;
    }
    Ok(marks)
}

// Marks a number, where there is one.
fn mark(marks: &mut [bool], number: usize)
    ensures { marks.new ≡ with_marks marks.old (number ∷ []) }
{
    if number < marks.len() {
        marks[number] = true;
    }
}

// Marks numbers.
fn mark_all(marks: &mut [bool], numbers: &[usize])
    ensures { marks.new ≡ with_marks marks.old numbers.now }
{
    for number in numbers {
        mark(marks, *number);
    }
}

// Marks what a number uses that has a mark.
fn mark_uses(names: &Resolved<'_>, marks: &mut [bool], number: usize)
    ensures { marks.new ≡ mark_uses (uses_of (file_view names.now.file.now)) number marks.old }
{
    if marks.get(number).copied().unwrap_or(false) {
        mark_all(marks, names.uses(number));
    }
}

// Which POUs are reached.
#[tactic(auto, unfolding(typing::specs::Reached::reached))]
fn reached(alloc: Global, names: &Resolved<'_>) -> Result<Vec<bool>, AllocError>
    ensures { IfOk result (λ marks. marks.items ≡ reached (file_view names.now.file.now)) }
{
    let mut marks = programs(alloc, names)?;
    let order = names.order();
    let mut left = order.len();
    while left > 0 {
        left -= 1;
        mark_uses(names, &mut marks, order[left]);
    }
    Ok(marks)
}

/// The POUs that are reached, in the order in which each stands behind those that it uses.
#[tactic(auto, unfolding(typing::specs::Reached::reached_order))]
pub(crate) fn reached_order(alloc: Global, names: &Resolved<'_>) -> Result<Vec<usize>, AllocError>
    ensures { IfOk result (λ list. list.items ≡ reached_order (file_view names.now.file.now)) }
{
    let marks = reached(alloc, names)?;
    let mut list = Vec::new(alloc);
    for number in names.order() {
        if marks.get(*number).copied().unwrap_or(false) {
            list.push(*number)?;
        }
    }
    Ok(list)
}
