// The POUs of a file by their numbers, and the FUNCTIONs that are called.
ghost use Rattle.std.specs.Prelude.{◌≡◌, false, option_map, unwrap_or};
ghost use Rattle.source_tree.specs.SyntaxView.{name_view, pou_view, file_view};
ghost use Rattle.naming.specs.FileScope.{pou_at, standing};
ghost use Rattle.typing.specs.Members.{is_function, function_number};

use file_bindings::Resolved;
use naming::pou_number;
use source_tree::{Name, Pou, PouType};

/// The POU of a number, where there is one.
pub fn pou_at<'a>(names: &'a Resolved<'_>, number: usize) -> Option<&'a Pou>
    ensures { option_map (λ p. pou_view p.now) result ≡ pou_at (file_view names.now.file.now) number }
{
    if number < names.pou_count() {
        Some(names.pou(number))
    } else {
        None
    }
}

fn is_function(pou: Option<&Pou>) -> bool
    ensures { result ≡ unwrap_or (option_map (λ p. is_function (pou_view p.now).pou_type) pou.entry) false }
{
    match pou {
        None => false,
        Some(pou) => matches!(pou.pou_type, PouType::Function(_)),
    }
}

/// The FUNCTION that a name that is used stands for, by its number.
pub fn function_number(names: &Resolved<'_>, name: &Name) -> Option<usize>
    ensures { let f = file_view names.now.file.now in result ≡ function_number f (standing f (name_view name.now).text) }
{
    let number = pou_number(names.standing_of_use(name))?;
    if is_function(pou_at(names, number)) {
        Some(number)
    } else {
        None
    }
}
