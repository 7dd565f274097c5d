// The names of clauses.
ghost use Rattle.std.specs.Prelude.{◌≡◌, None, option_map};
ghost use Rattle.rules.specs.Rules.{earlier, first_in};
ghost use Rattle.source_tree.specs.SyntaxView.{name_view, path_view, tree_view, links_view, arguments_view};
ghost use Rattle.relation_file.specs.Clauses.{is_side, broken_path, broken_argument, broken_names, broken_links, broken_arguments, unknown_unless};

use crate::unless::{breaks, unless};
use naming::is_library;
use rules::{Refusal, Rule};
use source_tree::{Argument, Expr, Link, Name, Path};
use typing::{Meaning, Scope};

// Whether a word says which program is meant.
fn is_side(text: &str) -> bool
    ensures { result ≡ is_side text.now }
{
    text == "OLD" || text == "NEW"
}

// N2 where a path stands for nothing.
fn unknown_unless(at: usize, meaning: Option<Meaning>) -> Option<Refusal>
    ensures { result ≡ first_in (unknown_unless at meaning) }
{
    match meaning {
        None => breaks(Rule::UnknownName, at),
        Some(_) => None,
    }
}

// What a path breaks: it has `old` or `new` before it (R3), and names a cell (N2, at the name behind).
fn path_refusal<S: Scope>(scope: &S, path: &Path) -> Option<Refusal>
    ensures { result ≡ first_in (broken_path (S.means scope.now) (path_view path.now)) }
{
    match path.members.first() {
        Some(member) if is_side(path.first.text.as_str()) => {
            unknown_unless(member.at, scope.meaning(path))
        }
        _ => breaks(Rule::NoSide, path.first.at),
    }
}

// What an argument's name breaks: standard functions have none (N2).
fn argument_refusal(known: bool, name: &Option<Name>) -> Option<Refusal>
    ensures { result ≡ first_in (broken_argument known (option_map name_view name.now)) }
{
    match name {
        Some(name) if known => breaks(Rule::UnknownName, name.at),
        _ => None,
    }
}

// Keeps what the names of an expression break, where it comes first.
#[cycle(walk_names)]
fn walk_names<S: Scope>(scope: &S, expr: &Expr, first: &mut Option<Refusal>)
    ensures { first.new ≡ earlier first.old (first_in (broken_names (S.means scope.now) (tree_view expr.now))) }
{
    match expr {
        Expr::Literal(_) => {}
        Expr::Path(path) => *first = Refusal::earlier(*first, path_refusal(scope, path)),
        Expr::Enumerator(name, _) => {
            *first = Refusal::earlier(*first, breaks(Rule::NoSide, name.at));
        }
        Expr::Paren(_, inner) => walk_names(scope, inner, first),
        Expr::Unary(_, _, inner) => walk_names(scope, inner, first),
        Expr::Chain(left, links) => {
            walk_names(scope, left, first);
            walk_links(scope, links, first);
        }
        Expr::Call(function, _, arguments) => {
            // A called name is that of a standard function (N2).
            let known = is_library(function.text.as_str());
            *first = Refusal::earlier(*first, unless(known, Rule::UnknownName, function.at));
            walk_arguments(scope, known, arguments, first);
        }
    }
}

// Keeps what the names of operands break.
#[cycle(walk_names)]
fn walk_links<S: Scope>(scope: &S, links: &[Link], first: &mut Option<Refusal>)
    ensures { first.new ≡ earlier first.old (first_in (broken_links (S.means scope.now) (links_view links.now))) }
{
    for link in links {
        walk_names(scope, &link.right, first);
    }
}

// Keeps what the names of arguments break.
#[cycle(walk_names)]
fn walk_arguments<S: Scope>(
    scope: &S,
    known: bool,
    arguments: &[Argument],
    first: &mut Option<Refusal>,
)
    ensures { first.new ≡ earlier first.old (first_in (broken_arguments (S.means scope.now) known (arguments_view arguments.now))) }
{
    for argument in arguments {
        *first = Refusal::earlier(*first, argument_refusal(known, &argument.name));
        walk_names(scope, &argument.value, first);
    }
}

/// What the names of a clause break first.
pub(crate) fn names_refusal<S: Scope>(scope: &S, clause: &Expr) -> Option<Refusal>
    ensures { result ≡ first_in (broken_names (S.means scope.now) (tree_view clause.now)) }
{
    let mut first = None;
    walk_names(scope, clause, &mut first);
    first
}
