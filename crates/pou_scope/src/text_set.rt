// Sets of texts.
ghost use Rattle.std.specs.Prelude.{◌≡◌, OnOk};
ghost use Rattle.std.specs.Str.{bytes_eq};
ghost use Rattle.source_tree.specs.SyntaxView.{name_view};
ghost use Rattle.naming.specs.TextSets.{has, Adds};

use indexmap::IndexMap;
use source_tree::Name;
use std::alloc::AllocError;

/// Texts, of which each is looked up in constant time.
pub type TextSet = IndexMap<String, ()>;

/// Whether a text is in a set.
pub fn has(set: &TextSet, text: &str) -> bool
    ensures { result ≡ has set.now text.now }
{
    set.get(text).is_some()
}

/// Adds the text of a name.
pub fn add(set: &mut TextSet, name: &Name) -> Result<(), AllocError>
    ensures { OnOk result (Adds set.old set.new (bytes_eq (name_view name.now).text)) }
{
    set.insert(name.text.clone()?, ())?;
    Ok(())
}
