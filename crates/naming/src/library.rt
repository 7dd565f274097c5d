// Names that each file's scope has from the start.
ghost use Rattle.std.specs.Prelude.{◌≡◌, map, option_map};
ghost use Rattle.naming.specs.Library.{function_in, after_front, conversion_to, conversion_from, conversion_in, standard_function, is_library};

use plc_types::{Elementary, Shift, StandardFunction};

// The standard functions, but for the conversions.
const FUNCTIONS: [(&str, StandardFunction); 9] = [
    ("ABS", StandardFunction::Absolute),
    ("MIN", StandardFunction::Minimum),
    ("MAX", StandardFunction::Maximum),
    ("LIMIT", StandardFunction::Limit),
    ("SEL", StandardFunction::Select),
    ("SHL", StandardFunction::Shift(Shift::Left)),
    ("SHR", StandardFunction::Shift(Shift::Right)),
    ("ROL", StandardFunction::Shift(Shift::RotateLeft)),
    ("ROR", StandardFunction::Shift(Shift::RotateRight)),
];

// The function of a name, among these.
fn function_in(functions: &[(&str, StandardFunction)], text: &[u8]) -> Option<StandardFunction>
    ensures { result ≡ function_in (map (λ e. (e.0.now, e.1)) functions.now) text.now }
{
    for (name, function) in functions {
        if name.as_bytes() == text {
            return Some(*function);
        }
    }
    None
}

// What stands in a text behind a front of it.
fn after_front<'a>(front: &[u8], text: &'a [u8]) -> Option<&'a [u8]>
    ensures { option_map (λ rest. rest.now) result ≡ after_front front.now text.now }
{
    let Some((first, more)) = front.split_first() else {
        return Some(text);
    };
    let Some((byte, rest)) = text.split_first() else {
        return None;
    };
    if *first == *byte {
        after_front(more, rest)
    } else {
        None
    }
}

// The conversion between two types, where they are two.
fn conversion_to(from: Elementary, to: Option<Elementary>) -> Option<StandardFunction>
    ensures { result ≡ conversion_to from to }
{
    match to {
        None => None,
        Some(to) => {
            if from == to {
                return None;
            }
            Some(StandardFunction::Conversion { from, to })
        }
    }
}

// The conversion `A_TO_B` that a text names, A being this type, of this name.
fn conversion_from(name: &[u8], from: Elementary, text: &[u8]) -> Option<StandardFunction>
    ensures { result ≡ conversion_from name.now from text.now }
{
    match after_front(name, text) {
        None => None,
        Some(rest) => match after_front(b"_TO_", rest) {
            None => None,
            Some(to) => conversion_to(from, Elementary::named(to)),
        },
    }
}

// The conversion `A_TO_B` that a text names, A being one of these types.
fn conversion_in(types: &[Elementary], text: &[u8]) -> Option<StandardFunction>
    ensures { result ≡ conversion_in types.now text.now }
{
    for from in types {
        if let Some(conversion) = conversion_from(from.name().as_bytes(), *from, text) {
            return Some(conversion);
        }
    }
    None
}

/// The standard function that a text in upper case names, conversions among them.
#[tactic(auto, unfolding(crate::specs::Library::standard_function))]
pub fn standard_function(text: &str) -> Option<StandardFunction>
    ensures { result ≡ standard_function text.now }
{
    let bytes = text.as_bytes();
    match function_in(&FUNCTIONS, bytes) {
        Some(function) => Some(function),
        None => conversion_in(Elementary::all(), bytes),
    }
}

/// Whether a text in upper case names a standard function or a conversion.
pub fn is_library(text: &str) -> bool
    ensures { result ≡ is_library text.now }
{
    standard_function(text).is_some()
}
