// The names of a POU in declared order.
ghost use Rattle.std.specs.Prelude.{◌≡◌, ◌++◌, OnOk, IfOk};
ghost use Rattle.source_tree.specs.SyntaxView.{name_view, pou_type_view, pou_view, declaration_view, declarations_view, all_variables_view};
ghost use Rattle.naming.specs.Scopes.{declared_by, declared_in, variables_of, result_of, variables_in_pou};
ghost use Rattle.naming.specs.ScopeView.{variables_view};

use crate::chart_names::append_names_in_body;
use naming::{Declared, Role};
use source_tree::{Declaration, Name, Pou, PouType, Variables};
use std::alloc::{AllocError, Global};

// Appends a FUNCTION's own name.
fn append_result<'a>(
    list: &mut Vec<Declared<'a>>,
    pou_type: &'a PouType,
    name: &'a Name,
) -> Result<(), AllocError>
    ensures { OnOk result (variables_view list.new.items ≡ variables_view list.old.items ++ result_of (pou_type_view pou_type.now) (name_view name.now)) }
{
    if let PouType::Function(kind) = pou_type {
        list.push(Declared {
            name,
            role: Role::Result,
            kind: Some(kind),
            initial: None,
            part: None,
            block: None,
            whole: false,
        })?;
    }
    Ok(())
}

// Appends the variables of a declaration.
fn append_declared<'a>(
    list: &mut Vec<Declared<'a>>,
    role: Role,
    declaration: &'a Declaration,
) -> Result<(), AllocError>
    ensures { OnOk result (variables_view list.new.items ≡ variables_view list.old.items ++ declared_by role (declaration_view declaration.now)) }
{
    let first = Declared {
        name: &declaration.first,
        role,
        kind: Some(&declaration.kind),
        initial: declaration.initial.as_ref(),
        part: None,
        block: None,
        whole: false,
    };
    list.push(first)?;
    for name in &declaration.others {
        list.push(Declared { name, ..first })?;
    }
    Ok(())
}

// Appends the variables of a section.
fn append_section<'a>(
    list: &mut Vec<Declared<'a>>,
    role: Role,
    declarations: &'a [Declaration],
) -> Result<(), AllocError>
    ensures { OnOk result (variables_view list.new.items ≡ variables_view list.old.items ++ declared_in role (declarations_view declarations.now)) }
{
    for declaration in declarations {
        append_declared(list, role, declaration)?;
    }
    Ok(())
}

// Appends the variables that are declared in lists.
fn append_sections<'a>(
    list: &mut Vec<Declared<'a>>,
    sections: &'a [Variables],
) -> Result<(), AllocError>
    ensures { OnOk result (variables_view list.new.items ≡ variables_view list.old.items ++ variables_of (all_variables_view sections.now)) }
{
    for section in sections {
        append_section(list, Role::of(section.section), &section.declarations)?;
    }
    Ok(())
}

/// The names of a POU: of a FUNCTION first its own, then the variables that are declared, in their order, and then the names of a
/// chart.
pub fn declared_variables(alloc: Global, pou: &Pou) -> Result<Vec<Declared<'_>>, AllocError>
    ensures { IfOk result (λ list. variables_view list.items ≡ variables_in_pou (pou_view pou.now)) }
{
    let mut list = Vec::new(alloc);
    append_result(&mut list, &pou.pou_type, &pou.name)?;
    append_sections(&mut list, &pou.variables)?;
    append_names_in_body(alloc, &mut list, &pou.body)?;
    Ok(list)
}
