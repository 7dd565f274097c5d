// The data types of a pair of programs.
ghost use Rattle.std.specs.Prelude.{◌≡◌, ◌<◌, length, slice_get, unwrap_or, IfOk};
ghost use Rattle.plc_types.specs.Enumerations.{are_same_names, names_at};
ghost use Rattle.program_tree.specs.View.{texts_view, lists_of_texts, program_view};
ghost use Rattle.clause_types.specs.PairedNumbers.{paired_numbers};
ghost use Rattle.clause_types.specs.Sides.{FindsValues};

use crate::enumeration_values::{Values, find_value};
use plc_types::DataType;
use program_tree::Program;
use std::alloc::{AllocError, Global};

// Whether two lists are of the same names in the same order.
fn are_same_names(names: &[String], others: &[String]) -> bool
    ensures { result ≡ are_same_names (texts_view names.now) (texts_view others.now) }
{
    let Some((name, more)) = names.split_first() else {
        return others.is_empty();
    };
    let Some((other, rest)) = others.split_first() else {
        return false;
    };
    name.as_bytes() == other.as_bytes() && are_same_names(more, rest)
}

// The names of the type of a number.
fn names_at(types: &[Vec<String>], number: usize) -> &[String]
    ensures names { texts_view result.now ≡ names_at (lists_of_texts types.now) number }
    ensures within { 0 < length result.now → number < length types.now }
{
    match types.get(number) {
        None => &[],
        Some(names) => names,
    }
}

// The enumerations of OLD, whose values are known by their names.
#[derive(Drop)]
struct OldTypes<'v, 'p> {
    program: &'p Program,
    values: &'v Values<'p>,
    ghost found: { FindsValues values.now 0 (program_view program.now).types },
}

impl<'v, 'p> OldTypes<'v, 'p> {
    ghost use Rattle.std.specs.Prelude.{◌≡◌, ◌<◌, ◌^◌, option_map};
    ghost use Rattle.plc_types.specs.Enumerations.{value_named, old_type_of, paired_number};
    ghost use Rattle.program_tree.specs.View.{texts_view, program_view};
    ghost use Rattle.clause_types.specs.Sides.{FindsValues};

    // The enumerations of a program, whose values were found.
    fn new(program: &'p Program, values: &'v Values<'p>) -> OldTypes<'v, 'p>
        requires { FindsValues values.now 0 (program_view program.now).types }
        ensures { result.program.now ≡ program.now }
    {
        OldTypes { program, values }
    }

    // The type that has a value of a name.
    fn type_with(&self, name: &str) -> Option<usize>
        ensures { result ≡ option_map (λ v. v.0) (value_named name.now 0 (program_view self.now.program.now).types) }
    {
        let value = find_value(self.values, name)?;
        Some(value.kind)
    }

    // The type that has these names.
    fn type_of(&self, names: &[String]) -> Option<usize>
        ensures { result ≡ old_type_of (program_view self.now.program.now).types (texts_view names.now) }
    {
        let first = names.first()?;
        let kind = self.type_with(first.as_str())?;
        if are_same_names(names_at(&self.program.types, kind), names) {
            Some(kind)
        } else {
            None
        }
    }

    // The enumeration of a number of NEW, which has these names.
    fn paired_number(&self, number: usize, names: &[String]) -> DataType
        requires { number < 2 ^ 63 }
        ensures { result ≡ paired_number (program_view self.now.program.now).types number (texts_view names.now) }
    {
        if names.is_empty() {
            return DataType::Unknown;
        }
        match self.type_of(names) {
            Some(kind) => DataType::Enumeration(kind),
            None => DataType::Enumeration(self.program.types.len() + number),
        }
    }
}

// The enumerations of NEW, as they are in the pair.
fn paired_numbers(
    alloc: Global,
    old: &OldTypes<'_, '_>,
    types: &[Vec<String>],
) -> Result<Vec<DataType>, AllocError>
    ensures { IfOk result (λ numbers. numbers.items ≡ paired_numbers (program_view old.now.program.now).types 0 (lists_of_texts types.now)) }
{
    let mut numbers = Vec::new(alloc);
    for (number, names) in types.iter().enumerate() {
        let kind = old.paired_number(number, names);
        numbers.push(kind)?;
    }
    Ok(numbers)
}

// The data type at a place, where there is one.
fn kind_at(kinds: &[DataType], place: usize) -> DataType
    ensures { result ≡ unwrap_or (slice_get kinds.now place) DataType.Unknown }
{
    match kinds.get(place) {
        None => DataType::Unknown,
        Some(kind) => *kind,
    }
}

/// The data types of a pair: an enumeration of NEW that has the same names in the same order as one of OLD is OLD's, and
/// any other is numbered behind those of OLD.
#[derive(Drop)]
pub struct PairedTypes<'p> {
    old: &'p Program,
    new: &'p Program,
    numbers: Vec<DataType>,
    ghost listed: { numbers.items ≡ paired_numbers (program_view old.now).types 0 (program_view new.now).types },
}

impl<'p> PairedTypes<'p> {
    ghost use Rattle.std.specs.Prelude.{◌≡◌, IfOk};
    ghost use Rattle.plc_types.specs.Enumerations.{paired_type};
    ghost use Rattle.program_tree.specs.View.{program_view};
    ghost use Rattle.clause_types.specs.PairedTypes.{paired_in};
    ghost use Rattle.clause_types.specs.Sides.{FindsValues};

    /// The data types of a pair, where the values of OLD were found. Takes as long as the names of NEW's enumerations.
    pub(crate) fn new(
        alloc: Global,
        old: &'p Program,
        values: &Values<'p>,
        new: &'p Program,
    ) -> Result<PairedTypes<'p>, AllocError>
        requires { FindsValues values.now 0 (program_view old.now).types }
        ensures { IfOk result (λ types. paired_in types ≡ paired_type (program_view old.now).types (program_view new.now).types) }
    {
        let of_old = OldTypes::new(old, values);
        let numbers = paired_numbers(alloc, &of_old, &new.types)?;
        Ok(PairedTypes { old, new, numbers })
    }

    // The enumeration of a number of NEW.
    fn paired_number(&self, number: usize) -> DataType
        ensures { result ≡ paired_in self.now (DataType.Enumeration number) }
    {
        kind_at(&self.numbers, number)
    }

    /// A data type of NEW in the pair.
    pub fn paired(&self, kind: DataType) -> DataType
        ensures { result ≡ paired_in self.now kind }
    {
        match kind {
            DataType::Elementary(kind) => DataType::Elementary(kind),
            DataType::Enumeration(number) => self.paired_number(number),
            DataType::Unknown => DataType::Unknown,
        }
    }
}
