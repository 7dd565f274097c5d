// Declarations of types (IEC 61131-3, 2.3.3).
ghost use Rattle.std.specs.Prelude.{[], length};
ghost use Rattle.source_tree.specs.SyntaxView as view;
ghost use Rattle.grammar.specs.Types as spec;
ghost use Rattle.grammar.specs.Reading.{Gives, ahead};

use crate::declaration::{others, type_name};
use grammar::Stop;
use source_tree::{Mark, Specification, Tok, TypeDeclaration};
use st_reader::{after, expect, named, opened, refuse};
use std::alloc::Global;

/// The names of an enumeration, from the place behind its parenthesis, which stands at `place` in the text.
#[tactic(auto, unfolding(grammar::specs::Types::values))]
fn values(
    alloc: Global,
    place: usize,
    toks: &[Tok<'_>],
    end: usize,
    at: usize,
) -> Result<(Specification, usize), Stop>
    ensures { Gives view.specification_view toks.now result (spec.values (length toks.now) place (ahead toks.now at)) }
{
    let (first, at) = named(alloc, toks, end, at)?;
    let (others, at) = others(alloc, toks, end, at)?;
    let at = expect(Mark::Close, toks, end, at)?;
    Ok((Specification::Enumeration(place, first, others), at))
}

/// What a declared type is: an enumeration, or a type as that of a variable.
#[tactic(auto, unfolding(grammar::specs::Types::specification))]
fn specification(
    alloc: Global,
    toks: &[Tok<'_>],
    end: usize,
    at: usize,
) -> Result<(Specification, usize), Stop>
    ensures { Gives view.specification_view toks.now result (spec.specification (length toks.now) (ahead toks.now at)) }
{
    match opened(toks, at) {
        Some((place, at)) => values(alloc, place, toks, end, at),
        None => {
            let (kind, at) = type_name(alloc, toks, end, at)?;
            Ok((Specification::Type(kind), at))
        }
    }
}

/// A declaration of a type.
#[tactic(auto, unfolding(grammar::specs::Types::type_declaration))]
fn type_declaration(
    alloc: Global,
    toks: &[Tok<'_>],
    end: usize,
    at: usize,
) -> Result<(TypeDeclaration, usize), Stop>
    ensures { Gives view.type_declaration_view toks.now result (spec.type_declaration (length toks.now) (ahead toks.now at)) }
{
    let (name, at) = named(alloc, toks, end, at)?;
    let at = expect(Mark::Colon, toks, end, at)?;
    let (specification, at) = specification(alloc, toks, end, at)?;
    let at = expect(Mark::Semicolon, toks, end, at)?;
    let found = TypeDeclaration {
        name,
        specification,
    };
    Ok((found, at))
}

/// Declarations of types, up to END_TYPE.
pub fn types(
    alloc: Global,
    toks: &[Tok<'_>],
    end: usize,
    mut at: usize,
) -> Result<(Vec<TypeDeclaration>, usize), Stop>
    ensures { Gives (λ v. view.type_declarations_view v.items) toks.now result (spec.types (length toks.now) (length toks.now) [] (ahead toks.now at)) }
{
    let mut found = Vec::new(alloc);
    for _turn in 0..toks.len() {
        if let Some(next) = after(Mark::EndType, toks, at) {
            return Ok((found, next));
        }
        let (next, behind) = type_declaration(alloc, toks, end, at)?;
        found.push(next)?;
        at = behind;
    }
    Err(refuse(toks, end, at))
}
