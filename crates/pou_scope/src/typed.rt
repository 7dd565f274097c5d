// Which variables are instances, and whose types break no rule.
ghost use Rattle.std.specs.Prelude.{◌≡◌, option_map, unwrap_or, true};
ghost use Rattle.source_tree.specs.SyntaxView.{type_view, file_view};
ghost use Rattle.naming.specs.Scopes.{block_of, is_typed, is_whole_type};
ghost use Rattle.naming.specs.ScopeView.{variable_view};

use file_scope::FileScope;
use naming::Declared;
use source_tree::TypeName;

/// The block of a variable, where it is an instance.
pub fn block_of(file: &FileScope<'_>, variable: &Declared<'_>) -> Option<usize>
    ensures { result ≡ block_of (file_view file.now.types.names.file.now) (variable_view variable.now) }
{
    if variable.role.is_local() {
        file.block_of_type(variable.kind?)
    } else {
        None
    }
}

/// Whether a type breaks no rule, where there is one.
pub fn is_whole_kind(file: &FileScope<'_>, kind: Option<&TypeName>) -> bool
    ensures { result ≡ unwrap_or (option_map (λ t. is_whole_type (file_view file.now.types.names.file.now) (type_view t.now)) kind.entry) true }
{
    match kind {
        Some(kind) => file.is_whole_type(kind),
        None => true,
    }
}

/// Whether a variable is an instance, or its type breaks no rule.
pub fn is_typed(file: &FileScope<'_>, variable: &Declared<'_>) -> bool
    ensures { result ≡ is_typed (file_view file.now.types.names.file.now) (variable_view variable.now) }
{
    block_of(file, variable).is_some() || is_whole_kind(file, variable.kind)
}
