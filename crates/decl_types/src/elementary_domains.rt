// Which values types allow.
ghost use Rattle.std.specs.Prelude.{◌≡◌};
ghost use Rattle.source_tree.specs.SyntaxView.{names_view};
ghost use Rattle.typing.specs.Domains.{has_few, no_domain, elementary_domain, enumeration_domain};

use expr_types::range;
use plc_types::{DataType, Elementary, Range, Value};
use source_tree::Name;
use typing::Domain;

/// What leads to no type, or to one whose declaration breaks a rule.
pub fn no_domain() -> Domain
    ensures { result ≡ no_domain }
{
    Domain {
        kind: DataType::Unknown,
        range: range(Elementary::Bool),
        is_subrange: false,
        start: 0,
        whole: false,
    }
}

/// The values of an elementary type.
pub fn elementary_domain(kind: Elementary) -> Domain
    ensures { result ≡ elementary_domain kind }
{
    Domain {
        kind: DataType::Elementary(kind),
        range: range(kind),
        is_subrange: false,
        start: 0,
        whole: true,
    }
}

/// M3: whether an enumeration has few values, the first and the others.
pub fn has_few(others: &[Name]) -> bool
    ensures { result ≡ has_few (names_view others.now) }
{
    others.len() < 256
}

/// The values of the enumeration of a number.
pub fn enumeration_domain(number: usize, others: &[Name]) -> Domain
    ensures { result ≡ enumeration_domain number (names_view others.now) }
{
    if !has_few(others) {
        return no_domain();
    }
    let first = 0;
    Domain {
        kind: DataType::Enumeration(number),
        range: Range {
            low: first,
            high: others.len() as Value,
        },
        is_subrange: false,
        start: first,
        whole: true,
    }
}
