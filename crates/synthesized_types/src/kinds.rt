// The types of expressions (IEC 61131-3, 3.3.1).
ghost use Rattle.std.specs.Prelude.{◌≡◌};
ghost use Rattle.source_tree.specs.SyntaxView.{name_view, tree_view, links_view, arguments_view};
ghost use Rattle.typing.specs.Typing.{bool_type, is_unknown, kind_at, port_type, synthesized_of_answer, has_bits, is_ordered, is_bool, is_comparison, compares, synthesized, synthesized_of_links, synthesized_of_call, synthesized_of_arguments, or_dint, type_of, next_type, takes, place_of};
ghost use Rattle.naming.specs.Library.{standard_function};

use crate::literals::{place_of_literal, synthesized_of_literal};
use crate::parameters::{Parameter, parameter_of, result_of};
use naming::standard_function;
use plc_types::{DataType, Elementary, Operator, StandardFunction};
use source_tree::{Argument, Expr, Link, Name};
use typing::{Meaning, Port, Scope, Signature};

/// BOOL.
pub fn bool_type() -> DataType
    ensures { result ≡ bool_type }
{
    DataType::Elementary(Elementary::Bool)
}

/// The type of what a name stands for; that of a name whose declaration breaks a rule is unknown.
pub fn kind_at(meaning: Option<Meaning>) -> Option<DataType>
    ensures { result ≡ kind_at meaning }
{
    match meaning {
        None => None,
        Some(meaning) if meaning.whole => Some(meaning.kind),
        Some(_) => Some(DataType::Unknown),
    }
}

/// Whether a type is unknown.
pub fn is_unknown(kind: DataType) -> bool
    ensures { result ≡ is_unknown kind }
{
    matches!(kind, DataType::Unknown)
}

/// Whether a type is BOOL or a bit string.
pub fn has_bits(kind: DataType) -> bool
    ensures { result ≡ has_bits kind }
{
    match kind {
        DataType::Elementary(kind) => !kind.is_integer(),
        DataType::Enumeration(_) | DataType::Unknown => false,
    }
}

/// Whether the values of a type have an order.
pub fn is_ordered(kind: DataType) -> bool
    ensures { result ≡ is_ordered kind }
{
    matches!(kind, DataType::Elementary(_))
}

/// Whether a type is BOOL.
pub fn is_bool(kind: DataType) -> bool
    ensures { result ≡ is_bool kind }
{
    kind.is_same(bool_type())
}

fn is_comparison(operator: Operator) -> bool
    ensures { result ≡ is_comparison operator }
{
    matches!(
        operator,
        Operator::Equal
            | Operator::NotEqual
            | Operator::Less
            | Operator::Greater
            | Operator::LessEqual
            | Operator::GreaterEqual
    )
}

/// Whether the first operator of a chain is a comparison.
pub fn compares(links: &[Link]) -> bool
    ensures { result ≡ compares (links_view links.now) }
{
    match links.first() {
        None => false,
        Some(link) => is_comparison(link.operator),
    }
}

/// The synthesized type of an expression, where it has one.
#[cycle(synthesized)]
pub fn synthesized<S: Scope>(scope: &S, expr: &Expr) -> Option<DataType>
    ensures { result ≡ synthesized (S.means scope.now) (tree_view expr.now) }
{
    match expr {
        Expr::Literal(literal) => synthesized_of_literal(*literal),
        Expr::Path(path) => kind_at(scope.meaning(path)),
        Expr::Enumerator(_, value) => kind_at(scope.value(value)),
        Expr::Paren(_, inner) => synthesized(scope, inner),
        Expr::Unary(_, _, operand) => synthesized(scope, operand),
        Expr::Chain(first, links) => {
            if compares(links) {
                return Some(bool_type());
            }
            match synthesized(scope, first) {
                Some(kind) => Some(kind),
                None => synthesized_of_links(scope, links),
            }
        }
        Expr::Call(name, _, arguments) => synthesized_of_call(scope, name, arguments),
    }
}

/// The synthesized type of the leftmost operand that has one.
#[cycle(synthesized)]
pub fn synthesized_of_links<S: Scope>(scope: &S, links: &[Link]) -> Option<DataType>
    ensures { result ≡ synthesized_of_links (S.means scope.now) (links_view links.now) }
{
    for link in links {
        if let Some(kind) = synthesized(scope, &link.right) {
            return Some(kind);
        }
    }
    None
}

/// The type of an input or a result; that of one whose declaration breaks a rule is unknown.
pub fn port_type(port: Port) -> DataType
    ensures { result ≡ port_type port }
{
    if port.whole {
        port.kind
    } else {
        DataType::Unknown
    }
}

/// The synthesized type of a FUNCTION's answer.
pub fn synthesized_of_answer(signature: Option<Signature>) -> Option<DataType>
    ensures { result ≡ synthesized_of_answer signature }
{
    match signature {
        None => None,
        Some(signature) => Some(port_type(signature.result)),
    }
}

// The synthesized type of a call, where it has one.
#[cycle(synthesized)]
fn synthesized_of_call<S: Scope>(scope: &S, name: &Name, arguments: &[Argument]) -> Option<DataType>
    ensures { result ≡ synthesized_of_call (standard_function (name_view name.now).text) ((S.means scope.now).signature (name_view name.now).text) (λ f. synthesized_of_arguments (S.means scope.now) f 0 (arguments_view arguments.now)) }
{
    let Some(function) = standard_function(name.text.as_str()) else {
        return synthesized_of_answer(scope.signature(name));
    };
    match result_of(function) {
        Some(kind) => Some(kind),
        None => synthesized_of_arguments(scope, function, arguments),
    }
}

/// The synthesized type of the leftmost operand of the one type that has one.
#[cycle(synthesized)]
pub fn synthesized_of_arguments<S: Scope>(
    scope: &S,
    function: StandardFunction,
    arguments: &[Argument],
) -> Option<DataType>
    ensures { result ≡ synthesized_of_arguments (S.means scope.now) function 0 (arguments_view arguments.now) }
{
    for (place, argument) in arguments.iter().enumerate() {
        match parameter_of(function, place) {
            Parameter::Common => {
                if let Some(kind) = synthesized(scope, &argument.value) {
                    return Some(kind);
                }
            }
            Parameter::Fixed(_) | Parameter::Amount => {}
        }
    }
    None
}

/// The type that an untyped literal takes.
pub fn or_dint(expected: Option<DataType>) -> DataType
    ensures { result ≡ or_dint expected }
{
    expected.unwrap_or(DataType::Elementary(Elementary::Dint))
}

/// The type of an expression where a type is expected, or none.
pub fn type_of<S: Scope>(scope: &S, expected: Option<DataType>, expr: &Expr) -> DataType
    ensures { result ≡ type_of (S.means scope.now) expected (tree_view expr.now) }
{
    or_dint(synthesized(scope, expr).or(expected))
}

/// The type of the operands of the operator behind this one.
pub fn next_type(operator: Operator, kind: DataType) -> DataType
    ensures { result ≡ next_type operator kind }
{
    if is_comparison(operator) {
        bool_type()
    } else {
        kind
    }
}

/// Whether an operator takes operands of a type.
pub fn takes(operator: Operator, kind: DataType) -> bool
    ensures { result ≡ takes operator kind }
{
    match operator {
        Operator::Or | Operator::Xor | Operator::And => has_bits(kind),
        Operator::Plus | Operator::Minus => kind.is_integer(),
        Operator::Times | Operator::Divide | Operator::Mod => kind.is_integer(),
        Operator::Equal | Operator::NotEqual => true,
        Operator::Less | Operator::Greater => is_ordered(kind),
        Operator::LessEqual | Operator::GreaterEqual => is_ordered(kind),
    }
}

/// The place of an expression's first token.
pub fn place_of(expr: &Expr) -> usize
    ensures { result ≡ place_of (tree_view expr.now) }
{
    match expr {
        Expr::Literal(literal) => place_of_literal(*literal),
        Expr::Path(path) => path.first.at,
        Expr::Enumerator(kind, _) => kind.at,
        Expr::Paren(at, _) => *at,
        Expr::Unary(_, at, _) => *at,
        Expr::Chain(first, _) => place_of(first),
        Expr::Call(name, _, _) => name.at,
    }
}
