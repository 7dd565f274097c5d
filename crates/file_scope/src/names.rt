// The types and POUs of a file, and all names that it declares.
ghost use Rattle.std.specs.Prelude.{◌≡◌, ◌++◌, [], ◌∷◌, length, OnOk, IfOk};
ghost use Rattle.source_tree.specs.SyntaxView.{names_view, specification_view, type_declaration_view, type_declarations_view, item_view, pou_view, file_view};
ghost use Rattle.naming.specs.FileScope.{types_of, pous_of, names_of, names_of_values, names_in_specification, names_of_types, names_of_items};
ghost use Rattle.file_scope.specs.FileView.{file_names_view};
ghost use Rattle.naming.specs.ScopeView.{types_view, pous_view};
ghost use Rattle.naming.specs.declared.standing.Standing.TheVariants as standings;

use naming::Standing;
use source_tree::{Item, Name, Pou, SourceFile, Specification, TypeDeclaration};
use std::alloc::{AllocError, Global};

/// A name that a file declares, and what it stands for.
#[derive(Clone, Copy)]
pub struct FileName<'a> {
    pub name: &'a Name,
    pub standing: Standing,
}

/// The types and the POUs that a file declares and all its names, in its order.
#[derive(Drop)]
pub struct Declarations<'a> {
    pub types: Vec<&'a TypeDeclaration>,
    pub pous: Vec<&'a Pou>,
    pub names: Vec<FileName<'a>>,
}

// Appends the names of values behind the first of the type of a number.
fn append_others<'a>(
    list: &mut Vec<FileName<'a>>,
    number: usize,
    others: &'a [Name],
) -> Result<(), AllocError>
    ensures { OnOk result (file_names_view list.new.items ≡ file_names_view list.old.items ++ names_of_values number 1 (names_view others.now)) }
{
    for (place, name) in others.iter().enumerate() {
        list.push(FileName {
            name,
            standing: Standing::Value(number, place + 1),
        })?;
    }
    Ok(())
}

// Appends the names of values of the type of a number.
fn append_values<'a>(
    list: &mut Vec<FileName<'a>>,
    number: usize,
    specification: &'a Specification,
) -> Result<(), AllocError>
    ensures { OnOk result (file_names_view list.new.items ≡ file_names_view list.old.items ++ names_in_specification number (specification_view specification.now)) }
{
    match specification {
        Specification::Type(_) => Ok(()),
        Specification::Enumeration(_, first, others) => {
            list.push(FileName {
                name: first,
                standing: Standing::Value(number, 0),
            })?;
            append_others(list, number, others)
        }
    }
}

// Appends a type and its names.
fn append_type<'a>(
    list: &mut Declarations<'a>,
    declaration: &'a TypeDeclaration,
) -> Result<(), AllocError>
    ensures types { OnOk result (types_view list.new.types.items ≡ types_view list.old.types.items ++ type_declaration_view declaration.now ∷ []) }
    ensures names { OnOk result (file_names_view list.new.names.items ≡ file_names_view list.old.names.items ++ names_of_types (length list.old.types.items) (type_declaration_view declaration.now ∷ [])) }
    ensures pous { list.new.pous ≡ list.old.pous }
{
    let number = list.types.len();
    list.types.push(declaration)?;
    list.names.push(FileName {
        name: &declaration.name,
        standing: Standing::Type(number),
    })?;
    append_values(&mut list.names, number, &declaration.specification)
}

// Appends types and their names.
fn append_types<'a>(
    list: &mut Declarations<'a>,
    declarations: &'a [TypeDeclaration],
) -> Result<(), AllocError>
    ensures types { OnOk result (types_view list.new.types.items ≡ types_view list.old.types.items ++ type_declarations_view declarations.now) }
    ensures names { OnOk result (file_names_view list.new.names.items ≡ file_names_view list.old.names.items ++ names_of_types (length list.old.types.items) (type_declarations_view declarations.now)) }
    ensures pous { list.new.pous ≡ list.old.pous }
{
    for declaration in declarations {
        append_type(list, declaration)?;
    }
    Ok(())
}

// Appends a POU and its name.
fn append_pou<'a>(list: &mut Declarations<'a>, pou: &'a Pou) -> Result<(), AllocError>
    ensures types { list.new.types ≡ list.old.types }
    ensures names { OnOk result (file_names_view list.new.names.items ≡ file_names_view list.old.names.items ++ ((pou_view pou.now).name, standings.Pou (length list.old.pous.items)) ∷ []) }
    ensures pous { OnOk result (pous_view list.new.pous.items ≡ pous_view list.old.pous.items ++ pou_view pou.now ∷ []) }
{
    let number = list.pous.len();
    list.pous.push(pou)?;
    list.names.push(FileName {
        name: &pou.name,
        standing: Standing::Pou(number),
    })?;
    Ok(())
}

// Appends what a file declares in one place.
fn append_item<'a>(list: &mut Declarations<'a>, item: &'a Item) -> Result<(), AllocError>
    ensures types { OnOk result (types_view list.new.types.items ≡ types_view list.old.types.items ++ types_of (item_view item.now ∷ [])) }
    ensures names { OnOk result (file_names_view list.new.names.items ≡ file_names_view list.old.names.items ++ names_of_items (length list.old.types.items) (length list.old.pous.items) (item_view item.now ∷ [])) }
    ensures pous { OnOk result (pous_view list.new.pous.items ≡ pous_view list.old.pous.items ++ pous_of (item_view item.now ∷ [])) }
{
    match item {
        Item::Types(declarations) => append_types(list, declarations),
        Item::Pou(pou) => append_pou(list, pou),
    }
}

/// The types and the POUs that a file declares and all its names, in its order.
pub fn list_declarations(alloc: Global, file: &SourceFile) -> Result<Declarations<'_>, AllocError>
    ensures types { IfOk result (λ list. types_view list.types.items ≡ types_of (file_view file.now)) }
    ensures names { IfOk result (λ list. file_names_view list.names.items ≡ names_of (file_view file.now)) }
    ensures pous { IfOk result (λ list. pous_view list.pous.items ≡ pous_of (file_view file.now)) }
{
    let mut list = Declarations {
        types: Vec::new(alloc),
        pous: Vec::new(alloc),
        names: Vec::new(alloc),
    };
    for item in &file.items {
        append_item(&mut list, item)?;
    }
    Ok(list)
}
