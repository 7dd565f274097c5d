// The names of the values of a file's types.
ghost use Rattle.std.specs.Prelude.{◌≡◌, ◌∷◌, IfOk};
ghost use Rattle.source_tree.specs.SyntaxView.{name_view, names_view, specification_view};
ghost use Rattle.program_tree.specs.View.{texts_view, lists_of_texts};
ghost use Rattle.naming.specs.FileScope.{types_of};
ghost use Rattle.decl_types.specs.Bodies.{file_of};
ghost use Rattle.typing.specs.TypedPrograms.{texts_of, value_texts, type_texts};

use crate::file_types::FileTypes;
use source_tree::{Name, Specification};
use std::alloc::{AllocError, Global};

// The names of an enumeration's values.
fn names_of_values(alloc: Global, first: &Name, others: &[Name]) -> Result<Vec<String>, AllocError>
    ensures { IfOk result (λ list. texts_view list.items ≡ texts_of (name_view first.now ∷ names_view others.now)) }
{
    let mut list = Vec::new(alloc);
    list.push(String::from_str(alloc, first.text.as_str())?)?;
    for name in others.iter() {
        list.push(String::from_str(alloc, name.text.as_str())?)?;
    }
    Ok(list)
}

// The names of the values of a type, which only an enumeration has.
fn value_texts(alloc: Global, specification: &Specification) -> Result<Vec<String>, AllocError>
    ensures { IfOk result (λ list. texts_view list.items ≡ value_texts (specification_view specification.now)) }
{
    match specification {
        Specification::Type(_) => Ok(Vec::new(alloc)),
        Specification::Enumeration(_, first, others) => names_of_values(alloc, first, others),
    }
}

/// The names of the values of each type of a file.
pub fn type_texts(alloc: Global, file: &FileTypes<'_>) -> Result<Vec<Vec<String>>, AllocError>
    ensures { IfOk result (λ list. lists_of_texts list.items ≡ type_texts (types_of (file_of file.now))) }
{
    let mut list = Vec::new(alloc);
    for declaration in file.types.iter() {
        list.push(value_texts(alloc, &declaration.specification)?)?;
    }
    Ok(list)
}
