// Declarations of variables (IEC 61131-3, 2.4.3), and the types that are spelled there.
ghost use Rattle.std.specs.Prelude.{◌≡◌, [], length};
ghost use Rattle.source_tree.specs.SyntaxView as view;
ghost use Rattle.source_tree.specs.Levels as levels;
ghost use Rattle.grammar.specs.Declarations as spec;
ghost use Rattle.grammar.specs.Reading.{Gives, ahead, given};

use grammar::Stop;
use plc_types::Elementary;
use source_tree::{Bounds, Declaration, Mark, Name, Section, Terminal, Tok, TypeName, Variables};
use st_reader::{after, expect, initial, initial_value, named, opened, refuse, token, upper};
use std::alloc::Global;

/// The bounds of a subrange, from the place behind its parenthesis, which stands at `place` in the text.
#[tactic(auto, unfolding(grammar::specs::Declarations::bounds))]
fn bounds(
    alloc: Global,
    place: usize,
    toks: &[Tok<'_>],
    end: usize,
    at: usize,
) -> Result<(Bounds, usize), Stop>
    ensures { Gives view.bounds_view toks.now result (spec.bounds place (ahead toks.now at)) }
{
    let (low, at) = initial_value(alloc, toks, end, at)?;
    let at = expect(Mark::Range, toks, end, at)?;
    let (high, at) = initial_value(alloc, toks, end, at)?;
    let at = expect(Mark::Close, toks, end, at)?;
    let found = Bounds {
        at: place,
        low,
        high,
    };
    Ok((found, at))
}

/// A type from the place behind an elementary one, which stands at `place` in the text: a subrange of it, or itself.
#[tactic(auto, unfolding(grammar::specs::Declarations::ranged))]
fn ranged(
    alloc: Global,
    kind: Elementary,
    place: usize,
    toks: &[Tok<'_>],
    end: usize,
    at: usize,
) -> Result<(TypeName, usize), Stop>
    ensures { Gives view.type_view toks.now result (spec.ranged kind place (ahead toks.now at)) }
{
    match opened(toks, at) {
        Some((parenthesis, at)) => {
            let (found, at) = bounds(alloc, parenthesis, toks, end, at)?;
            let found = Box::new(alloc, found)?;
            Ok((TypeName::Subrange(kind, place, found), at))
        }
        None => Ok((TypeName::Elementary(kind, place), at)),
    }
}

/// A type: an elementary one, a subrange of one, or one by name.
#[tactic(auto, unfolding(grammar::specs::Declarations::type_of))]
pub fn type_name(
    alloc: Global,
    toks: &[Tok<'_>],
    end: usize,
    at: usize,
) -> Result<(TypeName, usize), Stop>
    ensures { Gives view.type_view toks.now result (spec.type_of (ahead toks.now at)) }
{
    let Some(first) = token(toks, at) else {
        return Err(refuse(toks, end, at));
    };
    match first.terminal {
        Terminal::Type(kind) => ranged(alloc, kind, first.at, toks, end, at + 1),
        Terminal::Name => {
            let name = upper(alloc, first.slice, first.at)?;
            Ok((TypeName::Named(name), at + 1))
        }
        _ => Err(refuse(toks, end, at)),
    }
}

/// The names behind commas.
pub fn others(
    alloc: Global,
    toks: &[Tok<'_>],
    end: usize,
    mut at: usize,
) -> Result<(Vec<Name>, usize), Stop>
    ensures { Gives (λ v. view.names_view v.items) toks.now result (spec.others (length toks.now) [] (ahead toks.now at)) }
{
    let mut names = Vec::new(alloc);
    for _turn in 0..toks.len() {
        let Some(next) = after(Mark::Comma, toks, at) else {
            return Ok((names, at));
        };
        let (name, next) = named(alloc, toks, end, next)?;
        names.push(name)?;
        at = next;
    }
    Ok((names, at))
}

/// A declaration, from the place behind its names.
#[tactic(auto, unfolding(grammar::specs::Declarations::declared))]
fn declared(
    alloc: Global,
    first: Name,
    others: Vec<Name>,
    toks: &[Tok<'_>],
    end: usize,
    at: usize,
) -> Result<(Declaration, usize), Stop>
    ensures { Gives view.declaration_view toks.now result (spec.declared (length toks.now) (view.name_view first) (view.names_view others.items) (ahead toks.now at)) }
{
    let at = expect(Mark::Colon, toks, end, at)?;
    let (kind, at) = type_name(alloc, toks, end, at)?;
    let (initial, at) = initial(alloc, toks, end, at)?;
    let at = expect(Mark::Semicolon, toks, end, at)?;
    let found = Declaration {
        first,
        others,
        kind,
        initial,
    };
    Ok((found, at))
}

/// A declaration.
#[tactic(auto, unfolding(grammar::specs::Declarations::declaration))]
fn declaration(
    alloc: Global,
    toks: &[Tok<'_>],
    end: usize,
    at: usize,
) -> Result<(Declaration, usize), Stop>
    ensures { Gives view.declaration_view toks.now result (spec.declaration (length toks.now) (ahead toks.now at)) }
{
    let (first, at) = named(alloc, toks, end, at)?;
    let (others, at) = others(alloc, toks, end, at)?;
    declared(alloc, first, others, toks, end, at)
}

/// Declarations, up to END_VAR.
fn declarations(
    alloc: Global,
    toks: &[Tok<'_>],
    end: usize,
    mut at: usize,
) -> Result<(Vec<Declaration>, usize), Stop>
    ensures { Gives (λ v. view.declarations_view v.items) toks.now result (spec.declarations (length toks.now) (length toks.now) [] (ahead toks.now at)) }
{
    let mut found = Vec::new(alloc);
    for _turn in 0..toks.len() {
        if let Some(next) = after(Mark::EndVar, toks, at) {
            return Ok((found, next));
        }
        let (next, behind) = declaration(alloc, toks, end, at)?;
        found.push(next)?;
        at = behind;
    }
    Err(refuse(toks, end, at))
}

/// The section behind VAR, where CONSTANT may stand, and the place behind its words.
#[tactic(auto, unfolding(grammar::specs::Declarations::local))]
fn local(toks: &[Tok<'_>], at: usize) -> (Section, usize)
    ensures { (result.0, ahead toks.now result.1) ≡ spec.local (ahead toks.now at) }
{
    match after(Mark::Constant, toks, at) {
        Some(next) => (Section::Constant, next),
        None => (Section::Local, at),
    }
}

/// The section that a word begins, and the place behind its words.
#[tactic(auto, unfolding(grammar::specs::Declarations::section_of, grammar::specs::Marks::same_mark))]
fn section_of(toks: &[Tok<'_>], at: usize) -> Option<(Section, usize)>
    ensures { given (λ s. s) toks.now result ≡ spec.section_of (ahead toks.now at) }
{
    let section = match token(toks, at)?.terminal {
        Terminal::Mark(Mark::VarInput) => Section::Input,
        Terminal::Mark(Mark::VarOutput) => Section::Output,
        Terminal::Mark(Mark::VarTemp) => Section::Temporary,
        Terminal::Mark(Mark::Var) => return Some(local(toks, at + 1)),
        _ => return None,
    };
    Some((section, at + 1))
}

/// Whether a FUNCTION may have a section: it has VAR_INPUT, VAR and VAR CONSTANT alone.
fn is_section_of_function(section: Section) -> bool
    ensures { result ≡ levels.is_section_of_function section }
{
    match section {
        Section::Input | Section::Local | Section::Constant => true,
        Section::Output | Section::Temporary => false,
    }
}

/// The section that a word begins, and the place behind its words; but none that a FUNCTION may not have, where it is
/// of one.
#[tactic(auto, unfolding(grammar::specs::Declarations::section_where))]
fn section_where(of_function: bool, toks: &[Tok<'_>], at: usize) -> Option<(Section, usize)>
    ensures { given (λ s. s) toks.now result ≡ spec.section_where of_function (ahead toks.now at) }
{
    let (section, next) = section_of(toks, at)?;
    if of_function && !is_section_of_function(section) {
        return None;
    }
    Some((section, next))
}

/// The sections of variables that follow, of a FUNCTION or of another POU.
pub fn variables(
    alloc: Global,
    of_function: bool,
    toks: &[Tok<'_>],
    end: usize,
    mut at: usize,
) -> Result<(Vec<Variables>, usize), Stop>
    ensures { Gives (λ v. view.all_variables_view v.items) toks.now result (spec.variables (length toks.now) of_function (length toks.now) [] (ahead toks.now at)) }
{
    let mut found = Vec::new(alloc);
    for _turn in 0..toks.len() {
        let Some((section, next)) = section_where(of_function, toks, at) else {
            return Ok((found, at));
        };
        let (declarations, next) = declarations(alloc, toks, end, next)?;
        found.push(Variables {
            section,
            declarations,
        })?;
        at = next;
    }
    Ok((found, at))
}
