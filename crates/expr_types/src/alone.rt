// Names that stand alone.
ghost use Rattle.std.specs.Prelude.{◌≡◌, IfOk};
ghost use Rattle.source_tree.specs.SyntaxView.{name_view, path_view};
ghost use Rattle.naming.specs.Broken.{alone};
ghost use Rattle.typing.specs.Typing.{by_path};

use source_tree::{Name, Path};
use std::alloc::{AllocError, Global};
use typing::{Meaning, Scope};

// The path of a name alone.
fn alone(alloc: Global, name: &Name) -> Result<Path, AllocError>
    ensures { IfOk result (λ path. path_view path ≡ alone (name_view name.now)) }
{
    Ok(Path {
        first: name.copy(alloc)?,
        members: Vec::new(alloc),
    })
}

/// What a name alone stands for.
pub fn meaning_alone<S: Scope>(
    alloc: Global,
    scope: &S,
    name: &Name,
) -> Result<Option<Meaning>, AllocError>
    ensures { IfOk result (λ meaning. meaning ≡ (S.means scope.now).means (by_path (alone (name_view name.now)))) }
{
    let path = alone(alloc, name)?;
    Ok(scope.meaning(&path))
}
