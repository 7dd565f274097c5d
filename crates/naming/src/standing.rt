// What the names of a file stand for.
ghost use Rattle.std.specs.Prelude.{◌≡◌};
ghost use Rattle.naming.specs.Ends.{is_value_of};
ghost use Rattle.naming.specs.FileScope.{is_type, is_value, pou_number};
ghost use Rattle.naming.specs.Types.{is_that_value, type_number};

/// What a name of a file stands for: a type, by its number in declared order from 0; a value of an enumeration, by the
/// numbers of its type and of itself; or a POU, by its number among those of the file in the order of the text, from 0.
#[derive(Clone, Copy)]
pub enum Standing {
    Type(usize),
    Value(usize, usize),
    Pou(usize),
}

/// Whether a name stands for a type.
pub fn is_type(standing: Option<Standing>) -> bool
    ensures { result ≡ is_type standing }
{
    matches!(standing, Some(Standing::Type(_)))
}

/// Whether a name stands for a value.
pub fn is_value(standing: Option<Standing>) -> bool
    ensures { result ≡ is_value standing }
{
    matches!(standing, Some(Standing::Value(_, _)))
}

/// Whether a name stands for a value of the type of a number.
pub fn is_value_of(number: usize, standing: Option<Standing>) -> bool
    ensures { result ≡ is_value_of number standing }
{
    match standing {
        Some(Standing::Value(kind, _)) => kind == number,
        _ => false,
    }
}

/// Whether a name stands for this value of the type of a number.
pub fn is_that_value(number: usize, place: usize, standing: Option<Standing>) -> bool
    ensures { result ≡ is_that_value number place standing }
{
    match standing {
        Some(Standing::Value(kind, value)) => number == kind && place == value,
        _ => false,
    }
}

/// The number of the type that a name stands for.
pub fn type_number(standing: Option<Standing>) -> Option<usize>
    ensures { result ≡ type_number standing }
{
    match standing {
        Some(Standing::Type(number)) => Some(number),
        _ => None,
    }
}

/// The number of the POU that a name stands for.
pub fn pou_number(standing: Option<Standing>) -> Option<usize>
    ensures { result ≡ pou_number standing }
{
    match standing {
        Some(Standing::Pou(number)) => Some(number),
        _ => None,
    }
}
