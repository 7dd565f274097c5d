// The entries of a table by names, and by the numbers that are kept of them.
ghost use Rattle.std.specs.Prelude.{◌≡◌, Some, IsSome, IfSome, option_map};
ghost use Rattle.std.specs.HashMap.{get_by_text};
ghost use Rattle.use_numbers.specs.Entries.{text_at};

use indexmap::IndexMap;

/// What a table has of a name, and the number of its entry.
pub fn numbered<V: Copy>(table: &IndexMap<String, V>, text: &str) -> Option<(usize, V)>
    ensures value { option_map (λ r. r.1) result ≡ get_by_text table.now text.now }
    ensures number { IfSome result (λ r. text_at table.now r.0 ≡ Some text.now) }
{
    let (number, _, value) = table.get_full(text)?;
    Some((number, *value))
}

/// What the entry of a number has, where it is that of a name.
pub fn entry_at<'m, V>(table: &'m IndexMap<String, V>, number: usize, text: &str) -> Option<&'m V>
    ensures entry { IfSome result (λ value. Some value.now ≡ get_by_text table.now text.now) }
    ensures number { IsSome result → text_at table.now number ≡ Some text.now }
{
    let (own, value) = table.get_index(number)?;
    if own.as_str() == text {
        Some(value)
    } else {
        None
    }
}

/// What a table has of a name, of whose entry this is the number; where there is none, or another's, the name is looked up.
pub fn entry_by<'m, V>(
    table: &'m IndexMap<String, V>,
    number: Option<usize>,
    text: &str,
) -> Option<&'m V>
    ensures { option_map (λ value. value.now) result ≡ get_by_text table.now text.now }
{
    if let Some(number) = number {
        if let Some(value) = entry_at(table, number, text) {
            return Some(value);
        }
    }
    table.get(text)
}

/// The same, as a value of its own.
pub fn value_by<V: Copy>(
    table: &IndexMap<String, V>,
    number: Option<usize>,
    text: &str,
) -> Option<V>
    ensures { result ≡ get_by_text table.now text.now }
{
    entry_by(table, number, text).copied()
}
