// The types of a file: where each leads to, and the values of enumerations.
ghost use Rattle.std.specs.Prelude.{◌≡◌, Some, option_map, length, IfOk};
ghost use Rattle.source_tree.specs.SyntaxView.{name_view, tree_view, specification_view, file_view};
ghost use Rattle.naming.specs.Ends.{Leads, Marks, AreShapes, shape_of, is_sound};
ghost use Rattle.naming.specs.FileScope.{types_of, standing};
ghost use Rattle.naming.specs.ScopeView.{types_view};
ghost use Rattle.naming.specs.Types.{type_number, specification_at, end_of, has_value, has_enumerator, is_constant_in_file, is_whole_end};

use crate::ends::{end_at, ends};
use crate::file_names::FileNames;
use naming::{Shape, is_value, is_value_of, type_number};
use source_tree::{Expr, Name, Specification, TypeDeclaration, TypeName};
use std::alloc::{AllocError, Global};

/// The names of a file, where each type leads to, and what it is.
#[derive(Drop)]
pub struct FileTypes<'a> {
    pub names: FileNames<'a>,
    pub ends: Vec<usize>,
    shapes: Vec<Shape>,
    ghost led: { Leads ends.items (end_of (file_view names.file.now)) },
    ghost all: { length ends.items ≡ length (types_of (file_view names.file.now)) },
    ghost shaped: { AreShapes (file_view names.file.now) shapes.items },
}

// Whether a type is an enumeration whose names break no rule.
fn is_sound(shape: Option<Shape>) -> bool
    ensures { result ≡ is_sound shape }
{
    matches!(shape, Some(Shape::Enumeration(true)))
}

// What the specification of the type of a number is.
fn shape_of(names: &FileNames<'_>, number: usize, specification: &Specification) -> Shape
    ensures { result ≡ shape_of (file_view names.now.file.now) number (specification_view specification.now) }
{
    match specification {
        Specification::Type(TypeName::Elementary(_, _)) => Shape::Elementary,
        Specification::Type(TypeName::Subrange(_, _, _)) => Shape::Subrange,
        Specification::Type(TypeName::Named(_)) => Shape::Named,
        Specification::Enumeration(_, first, others) => {
            Shape::Enumeration(names.are_first(number, first, others))
        }
    }
}

// What each type is.
fn shapes(
    alloc: Global,
    names: &FileNames<'_>,
    types: &[&TypeDeclaration],
) -> Result<Vec<Shape>, AllocError>
    requires { types_view types.now ≡ types_of (file_view names.now.file.now) }
    ensures { IfOk result (λ shapes. AreShapes (file_view names.now.file.now) shapes.items) }
{
    let mut shapes = Vec::new(alloc);
    for (number, declaration) in types.iter().enumerate() {
        shapes.push(shape_of(names, number, &declaration.specification))?;
    }
    Ok(shapes)
}

impl FileTypes<'_> {
    /// Where a type leads to.
    pub fn end_of(&self, number: usize) -> usize
        ensures { result ≡ end_of (file_view self.now.names.file.now) number }
    {
        end_at(&self.ends, number)
    }

    /// What a type is, by its number.
    pub fn shape_at(&self, number: usize) -> Option<Shape>
        ensures { result ≡ option_map (shape_of (file_view self.now.names.file.now) number) (specification_at (file_view self.now.names.file.now) number) }
    {
        self.shapes.get(number).copied()
    }

    /// Whether a type is an enumeration that has a value of a name.
    pub fn has_value(&self, number: usize, name: &Name) -> bool
        ensures { result ≡ has_value (file_view self.now.names.file.now) (name_view name.now).text number (specification_at (file_view self.now.names.file.now) number) }
    {
        is_sound(self.shape_at(number)) && is_value_of(number, self.names.first_standing(name))
    }

    /// The type that the type of a name leads to.
    pub fn named_end(&self, name: &Name) -> Option<usize>
        ensures { result ≡ option_map (end_of (file_view self.now.names.file.now)) (type_number (standing (file_view self.now.names.file.now) (name_view name.now).text)) }
    {
        let number = type_number(self.names.standing(name))?;
        Some(self.end_of(number))
    }

    /// Whether `kind#value` names a value.
    pub fn has_enumerator(&self, kind: &Name, value: &Name) -> bool
        ensures { result ≡ has_enumerator (file_view self.now.names.file.now) (name_view kind.now) (name_view value.now) }
    {
        match self.named_end(kind) {
            Some(number) => self.has_value(number, value),
            None => false,
        }
    }

    // Whether a constant names nothing but values.
    fn is_constant(&self, constant: &Expr) -> bool
        ensures { result ≡ is_constant_in_file (file_view self.now.names.file.now) (tree_view constant.now) }
    {
        match constant {
            Expr::Path(path) => is_value(self.names.standing(&path.first)),
            Expr::Enumerator(kind, value) => self.has_enumerator(kind, value),
            _ => true,
        }
    }

    // Whether the type of a number breaks no rule and is no other type by name.
    fn is_whole(&self, number: usize, specification: &Specification) -> bool
        ensures { result ≡ is_whole_end (file_view self.now.names.file.now) number (Some (specification_view specification.now)) }
    {
        match specification {
            Specification::Enumeration(_, first, others) => {
                self.names.are_first(number, first, others)
            }
            Specification::Type(TypeName::Elementary(_, _)) => true,
            Specification::Type(TypeName::Subrange(_, _, bounds)) => {
                self.is_constant(&bounds.low) && self.is_constant(&bounds.high)
            }
            Specification::Type(TypeName::Named(_)) => false,
        }
    }

    /// Which types break no rule and are no other types by name.
    pub fn wholes(&self, alloc: Global, types: &[&TypeDeclaration]) -> Result<Vec<bool>, AllocError>
        requires { types_view types.now ≡ types_of (file_view self.now.names.file.now) }
        ensures { IfOk result (λ marks. Marks marks.items (λ t. is_whole_end (file_view self.now.names.file.now) t (specification_at (file_view self.now.names.file.now) t))) }
    {
        let mut marks = Vec::new(alloc);
        for (number, declaration) in types.iter().enumerate() {
            marks.push(self.is_whole(number, &declaration.specification))?;
        }
        Ok(marks)
    }
}

/// The types of a file.
pub fn file_types<'a>(
    alloc: Global,
    names: FileNames<'a>,
    types: &[&TypeDeclaration],
) -> Result<FileTypes<'a>, AllocError>
    requires { types_view types.now ≡ types_of (file_view names.file.now) }
    ensures { IfOk result (λ scope. file_view scope.names.file.now ≡ file_view names.entry.file.now) }
{
    let ends = ends(alloc, &names, types)?;
    let shapes = shapes(alloc, &names, types)?;
    Ok(FileTypes {
        names,
        ends,
        shapes,
    })
}
