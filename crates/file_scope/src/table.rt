// The names of a file, each with what it stands for first, and whether it is declared twice.
ghost use Rattle.std.specs.Prelude.{◌≡◌, [], OnOk, IfOk, is_some, option_map, if◌then◌else◌, ◌||◌};
ghost use Rattle.std.specs.HashMap.{get_by_text};
ghost use Rattle.rules.specs.Rules.{earlier, first_in};
ghost use Rattle.source_tree.specs.SyntaxView.{name_view};
ghost use Rattle.naming.specs.Broken.{twice, names_twice};
ghost use Rattle.rules.specs.Judgements.{ok};
ghost use Rattle.rules.specs.Outcomes.{outcome_of};
ghost use Rattle.file_scope.specs.FileView.{file_names_view};
ghost use Rattle.naming.specs.Library.{is_library};
ghost use Rattle.naming.specs.Table.{entry_named, entered, is_doubled_by, standing_by, used, Holds};

use crate::names::FileName;
use crate::refusals::{misused, unknown};
use indexmap::IndexMap;
use naming::{Entry, Standing, is_library};
use rules::{Outcome, Refusal, Rule};
use source_tree::Name;
use std::alloc::{AllocError, Global};
use use_numbers::value_by;

/// The entries of a file's names.
pub type Table = IndexMap<String, Entry>;

/// The entry of a name.
pub fn entry_at(table: &Table, text: &str) -> Option<Entry>
    ensures { result ≡ get_by_text table.now text.now }
{
    table.get(text).copied()
}

/// Whether a file's scope has a name twice, the library's names among them.
pub fn is_doubled_at(table: &Table, text: &str) -> bool
    ensures { result ≡ is_doubled_by (get_by_text table.now text.now) }
{
    match entry_at(table, text) {
        Some(entry) => entry.is_doubled,
        None => false,
    }
}

// What a name stands for that the file's scope has once.
fn standing_by(entry: Option<Entry>) -> Option<Standing>
    ensures { result ≡ standing_by entry }
{
    match entry {
        Some(entry) if !entry.is_doubled => Some(entry.standing),
        _ => None,
    }
}

/// What a name stands for that the file's scope has once, in constant time.
pub fn standing_at(table: &Table, text: &str) -> Option<Standing>
    ensures { result ≡ standing_by (get_by_text table.now text.now) }
{
    standing_by(entry_at(table, text))
}

/// The same, where this is the number of its entry; where there is none, or another's, the name is looked up.
pub fn standing_by_number(table: &Table, number: Option<usize>, text: &str) -> Option<Standing>
    ensures { result ≡ standing_by (get_by_text table.now text.now) }
{
    standing_by(value_by(table, number, text))
}

/// What the first declared of a name stands for, in constant time.
pub fn first_at(table: &Table, text: &str) -> Option<Standing>
    ensures { result ≡ option_map (λ e. e.standing) (get_by_text table.now text.now) }
{
    match entry_at(table, text) {
        Some(entry) => Some(entry.standing),
        None => None,
    }
}

/// The use of a name, where none is that fits.
pub fn use_in(table: &Table, name: &Name) -> Outcome
    ensures { let n = name_view name.now in result ≡ outcome_of (used (is_library n.text) (get_by_text table.now n.text) n) }
{
    let text = name.text.as_str();
    match entry_at(table, text) {
        Some(entry) => {
            if entry.is_doubled {
                Outcome::suppressed()
            } else {
                misused(name)
            }
        }
        None => {
            if is_library(text) {
                misused(name)
            } else {
                unknown(name)
            }
        }
    }
}

// The entry of a name, which may be one of the library, once it is declared, again or for the first time.
fn entered(is_library: bool, standing: Standing, known: Option<Entry>) -> Entry
    ensures { result ≡ entered is_library standing known }
{
    match known {
        Some(entry) => Entry {
            standing: entry.standing,
            is_doubled: true,
        },
        None => Entry {
            standing,
            is_doubled: is_library,
        },
    }
}

// N1 at a name of the library, or of an earlier declaration.
fn declared_twice(is_library: bool, known: Option<Entry>, name: &Name) -> Option<Refusal>
    ensures { let n = name_view name.now in result ≡ first_in (if is_library || is_some known then twice n else ok).broken }
{
    if is_library || known.is_some() {
        return Some(Refusal {
            rule: Rule::DeclaredTwice,
            at: name.at,
        });
    }
    None
}

/// The table of a file's names. Keeps the first name that is declared twice, in the library or before.
pub fn table_of(
    alloc: Global,
    names: &[FileName<'_>],
    first: &mut Option<Refusal>,
) -> Result<Table, AllocError>
    ensures held { IfOk result (λ table. Holds table (entry_named (file_names_view names.now))) }
    ensures twice { OnOk result (first.new ≡ earlier first.old (first_in (names_twice [] (file_names_view names.now)))) }
{
    let mut table = IndexMap::new(alloc);
    for declared in names {
        let name = declared.name;
        let text = name.text.as_str();
        let known = entry_at(&table, text);
        let is_library = is_library(text);
        *first = Refusal::earlier(*first, declared_twice(is_library, known, name));
        let entry = entered(is_library, declared.standing, known);
        table.insert(name.text.clone()?, entry)?;
    }
    Ok(table)
}
