// Which declarations of a file use which, and which uses lead back to their user.
ghost use Rattle.std.specs.Prelude.{◌≡◌, ◌++◌, map, length, OnOk, IfOk};
ghost use Rattle.call_order.specs.Uses.{graph_of, HasCircles};
ghost use Rattle.source_tree.specs.SyntaxView.{name_view, tree_view, specification_view, pou_type_view, file_view};
ghost use Rattle.naming.specs.DeclarationUses.{used_by_name, used_by_bound, used_by_specification, used_by_result, declaration_uses};
ghost use Rattle.naming.specs.FileScope.{types_of, pous_of};
ghost use Rattle.naming.specs.ScopeView.{types_view, pous_view};

use crate::file_names::FileNames;
use call_order::circular_uses;
use naming::append_number;
use source_tree::{Expr, Name, Pou, PouType, Specification, TypeDeclaration, TypeName};
use std::alloc::{AllocError, Global};

// The names of a file, and how many types it has.
#[derive(Clone, Copy)]
struct Numbered<'a> {
    names: &'a FileNames<'a>,
    types: usize,
    ghost counted: { types ≡ length (types_of (file_view names.now.file.now)) },
}

impl Numbered<'_> {
    // Appends the declaration that a name stands for.
    fn append_name(&self, used: &mut Vec<usize>, name: &Name) -> Result<(), AllocError>
        ensures { OnOk result (used.new.items ≡ used.old.items ++ used_by_name (file_view self.now.names.now.file.now) (name_view name.now)) }
    {
        append_number(used, self.names.declaration_number(self.types, name))
    }

    // Appends the declaration that a bound uses.
    fn append_bound(&self, used: &mut Vec<usize>, bound: &Expr) -> Result<(), AllocError>
        ensures { OnOk result (used.new.items ≡ used.old.items ++ used_by_bound (file_view self.now.names.now.file.now) (tree_view bound.now)) }
    {
        match bound {
            Expr::Path(path) => self.append_name(used, &path.first),
            Expr::Enumerator(kind, _) => self.append_name(used, kind),
            _ => Ok(()),
        }
    }

    // Appends the declarations that a specification uses.
    fn append_specification(
        &self,
        used: &mut Vec<usize>,
        specification: &Specification,
    ) -> Result<(), AllocError>
        ensures { OnOk result (used.new.items ≡ used.old.items ++ used_by_specification (file_view self.now.names.now.file.now) (specification_view specification.now)) }
    {
        match specification {
            Specification::Type(TypeName::Named(name)) => self.append_name(used, name),
            Specification::Type(TypeName::Subrange(_, _, bounds)) => {
                self.append_bound(used, &bounds.low)?;
                self.append_bound(used, &bounds.high)
            }
            _ => Ok(()),
        }
    }

    // Appends the declaration that the type of a result uses.
    fn append_result(&self, used: &mut Vec<usize>, pou_type: &PouType) -> Result<(), AllocError>
        ensures { OnOk result (used.new.items ≡ used.old.items ++ used_by_result (file_view self.now.names.now.file.now) (pou_type_view pou_type.now)) }
    {
        match pou_type {
            PouType::Function(TypeName::Named(name)) => self.append_name(used, name),
            _ => Ok(()),
        }
    }

    // Appends what each of some types uses.
    fn append_types(
        &self,
        alloc: Global,
        all: &mut Vec<Vec<usize>>,
        types: &[&TypeDeclaration],
    ) -> Result<(), AllocError>
        ensures { let f = file_view self.now.names.now.file.now in OnOk result (graph_of all.new.items ≡ graph_of all.old.items ++ map (λ d. used_by_specification f d.specification) (types_view types.now)) }
    {
        for declaration in types {
            let mut used = Vec::new(alloc);
            self.append_specification(&mut used, &declaration.specification)?;
            all.push(used)?;
        }
        Ok(())
    }

    // Appends what each of some POUs uses.
    fn append_pous(
        &self,
        alloc: Global,
        all: &mut Vec<Vec<usize>>,
        pous: &[&Pou],
    ) -> Result<(), AllocError>
        ensures { let f = file_view self.now.names.now.file.now in OnOk result (graph_of all.new.items ≡ graph_of all.old.items ++ map (λ p. used_by_result f p.pou_type) (pous_view pous.now)) }
    {
        for pou in pous {
            let mut used = Vec::new(alloc);
            self.append_result(&mut used, &pou.pou_type)?;
            all.push(used)?;
        }
        Ok(())
    }
}

// For each declaration those that it uses.
fn declaration_uses(
    alloc: Global,
    names: &FileNames<'_>,
    types: &[&TypeDeclaration],
    pous: &[&Pou],
) -> Result<Vec<Vec<usize>>, AllocError>
    requires types { types_view types.now ≡ types_of (file_view names.now.file.now) }
    requires pous { pous_view pous.now ≡ pous_of (file_view names.now.file.now) }
    ensures { IfOk result (λ all. graph_of all.items ≡ declaration_uses (file_view names.now.file.now)) }
{
    let numbered = Numbered {
        names,
        types: types.len(),
    };
    let mut all = Vec::new(alloc);
    numbered.append_types(alloc, &mut all, types)?;
    numbered.append_pous(alloc, &mut all, pous)?;
    Ok(all)
}

/// For each declaration of a file those that it uses in a circle.
pub fn declaration_circles(
    alloc: Global,
    names: &FileNames<'_>,
    types: &[&TypeDeclaration],
    pous: &[&Pou],
) -> Result<Vec<Vec<usize>>, AllocError>
    requires types { types_view types.now ≡ types_of (file_view names.now.file.now) }
    requires pous { pous_view pous.now ≡ pous_of (file_view names.now.file.now) }
    ensures { IfOk result (λ circles. HasCircles (declaration_uses (file_view names.now.file.now)) (graph_of circles.items)) }
{
    let uses = declaration_uses(alloc, names, types, pous)?;
    circular_uses(alloc, &uses)
}
