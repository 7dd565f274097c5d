// The declarations of a POU, each with what is known of it.
ghost use Rattle.std.specs.Prelude.{◌≡◌, ◌&&◌, map, option_map, unwrap_or, true, IfOk};
ghost use Rattle.source_tree.specs.SyntaxView.{name_view, tree_view, type_view, file_view};
ghost use Rattle.naming.specs.Scopes.{is_value_name, is_constant, are_bounds_constant, is_initial_constant, has_constants, scope_with, seen};
ghost use Rattle.naming.specs.ScopeView.{variable_view, variables_view, seen_view};
ghost use Rattle.naming.specs.Slots.{slot_among};
ghost use Rattle.naming.specs.Table.{Holds};
ghost use Rattle.pou_scope.specs.AllSeen.{all_seen};

use crate::slots::Slots;
use crate::slotted::Slotted;
use crate::typed::{block_of, is_whole_kind};
use file_scope::FileScope;
use naming::{Declared, is_value};
use source_tree::{Expr, Name, TypeName};
use std::alloc::{AllocError, Global};

// The variables of a POU, and the names of the file around it.
#[derive(Clone, Copy)]
struct InFile<'a, 'f> {
    file: &'a FileScope<'f>,
    scope: Slotted<'a>,
}

impl InFile<'_, '_> {
    ghost use Rattle.pou_scope.specs.InFileView.{file_around, scope_around};

    // Whether a name stands for a value.
    fn is_value_name(&self, name: &Name) -> bool
        ensures { result ≡ is_value_name (file_around self.now) (scope_around self.now) (name_view name.now).text }
    {
        !self.scope.has_variable(name)
            && !self.scope.is_fault(name)
            && is_value(self.file.types.names.standing(name))
    }

    // Whether a constant names nothing but values.
    fn is_constant(&self, constant: &Expr) -> bool
        ensures { result ≡ is_constant (file_around self.now) (scope_around self.now) (tree_view constant.now) }
    {
        match constant {
            Expr::Path(path) => self.is_value_name(&path.first),
            Expr::Enumerator(kind, value) => self.file.types.has_enumerator(kind, value),
            _ => true,
        }
    }

    // Whether the bounds of a type name nothing but values.
    fn are_bounds_constant(&self, kind: &TypeName) -> bool
        ensures { result ≡ are_bounds_constant (file_around self.now) (scope_around self.now) (type_view kind.now) }
    {
        match kind {
            TypeName::Subrange(_, _, bounds) => {
                self.is_constant(&bounds.low) && self.is_constant(&bounds.high)
            }
            _ => true,
        }
    }

    // Whether the bounds of a type name nothing but values, where there is one.
    fn are_kind_constant(&self, kind: Option<&TypeName>) -> bool
        ensures { result ≡ unwrap_or (option_map (λ t. are_bounds_constant (file_around self.now) (scope_around self.now) (type_view t.now)) kind.entry) true }
    {
        match kind {
            Some(kind) => self.are_bounds_constant(kind),
            None => true,
        }
    }

    // Whether an initial value names nothing but values.
    fn is_initial_constant(&self, initial: Option<&Expr>) -> bool
        ensures { result ≡ is_initial_constant (file_around self.now) (scope_around self.now) (option_map (λ e. tree_view e.now) initial.entry) }
    {
        match initial {
            Some(value) => self.is_constant(value),
            None => true,
        }
    }

    // Whether the bounds and the initial value of a variable name nothing but values.
    fn has_constants(&self, variable: &Declared<'_>) -> bool
        ensures { result ≡ has_constants (file_around self.now) (scope_around self.now) (variable_view variable.now) }
    {
        self.are_kind_constant(variable.kind) && self.is_initial_constant(variable.initial)
    }

    // The declaration of a variable, with what is known of it.
    fn seen<'v>(&self, variable: &Declared<'v>) -> Declared<'v>
        ensures spelled { variable_view result ≡ variable_view variable.now }
        ensures seen { seen_view result ≡ seen (file_around self.now) (scope_around self.now) (variable_view variable.now) }
    {
        let block = block_of(self.file, variable);
        let is_typed = block.is_some() || is_whole_kind(self.file, variable.kind);
        Declared {
            whole: !self.scope.is_doubled(variable.name)
                && is_typed
                && self.has_constants(variable),
            block,
            ..*variable
        }
    }
}

/// The declarations of a POU in their order, each with what is known of it.
pub fn all_seen<'a, 'v>(
    alloc: Global,
    file: &'a FileScope<'_>,
    has_fault: bool,
    slots: &'a Slots,
    variables: &'a [Declared<'v>],
) -> Result<Vec<Declared<'v>>, AllocError>
    requires { Holds slots.now (slot_among has_fault (variables_view variables.now)) }
    ensures spelled { IfOk result (λ all. variables_view all.items ≡ variables_view variables.now) }
    ensures seen { IfOk result (λ all. map seen_view all.items ≡ all_seen (file_view file.now.types.names.file.now) (scope_with has_fault (variables_view variables.now))) }
{
    let scope = Slotted {
        has_fault,
        slots,
        variables: &*variables,
    };
    let around = InFile { file, scope };
    let mut all = Vec::new(alloc);
    for variable in variables {
        all.push(around.seen(variable))?;
    }
    Ok(all)
}
