// POUs: functions, function blocks and programs (IEC 61131-3, 2.5).
ghost use Rattle.std.specs.Prelude.{◌≡◌, length};
ghost use Rattle.source_tree.specs.SyntaxView as view;
ghost use Rattle.source_tree.specs.Prints as prints;
ghost use Rattle.grammar.specs.Pous as spec;
ghost use Rattle.grammar.specs.Reading.{Begins, Gives, ahead};

use crate::charts::{begins_part, chart};
use crate::declaration::variables;
use grammar::{DEPTH, Stop};
use source_tree::{Body, Mark, Name, Pou, PouType, Terminal, Tok, TypeName};
use st_reader::{after, expect, named, refuse, statements, token, upper};
use std::alloc::Global;

/// The type of a FUNCTION's result: an elementary one, or one by name.
#[tactic(auto, unfolding(grammar::specs::Pous::answered))]
fn answered(
    alloc: Global,
    toks: &[Tok<'_>],
    end: usize,
    at: usize,
) -> Result<(TypeName, usize), Stop>
    ensures { Gives view.type_view toks.now result (spec.answered (ahead toks.now at)) }
{
    let Some(first) = token(toks, at) else {
        return Err(refuse(toks, end, at));
    };
    match first.terminal {
        Terminal::Type(kind) => Ok((TypeName::Elementary(kind, first.at), at + 1)),
        Terminal::Name => {
            let name = upper(alloc, first.slice, first.at)?;
            Ok((TypeName::Named(name), at + 1))
        }
        _ => Err(refuse(toks, end, at)),
    }
}

/// What a POU does: a chart where a part of one begins, but not in a FUNCTION; else statements.
#[tactic(auto, unfolding(grammar::specs::Pous::body))]
fn body(
    alloc: Global,
    of_function: bool,
    toks: &[Tok<'_>],
    end: usize,
    at: usize,
) -> Result<(Body, usize), Stop>
    ensures { Gives view.body_view toks.now result (spec.body (length toks.now) DEPTH of_function (ahead toks.now at)) }
{
    if !of_function && begins_part(toks, at) {
        let (found, at) = chart(alloc, toks, end, at)?;
        return Ok((Body::Chart(found), at));
    }
    let (found, at) = statements(alloc, toks, end, at, DEPTH, false)?;
    Ok((Body::Statements(found), at))
}

fn is_function(pou_type: &PouType) -> bool
    ensures { result ≡ spec.is_function (view.pou_type_view pou_type.now) }
{
    match pou_type {
        PouType::Function(_) => true,
        PouType::FunctionBlock | PouType::Program => false,
    }
}

/// The word that a POU ends with.
fn end_of(pou_type: &PouType) -> Mark
    ensures { result ≡ prints.end_of (view.pou_type_view pou_type.now) }
{
    match pou_type {
        PouType::Function(_) => Mark::EndFunction,
        PouType::FunctionBlock => Mark::EndFunctionBlock,
        PouType::Program => Mark::EndProgram,
    }
}

/// A POU of a type and a name, from the place behind them.
#[tactic(auto, unfolding(grammar::specs::Pous::pou_of))]
fn pou_of(
    alloc: Global,
    pou_type: PouType,
    name: Name,
    toks: &[Tok<'_>],
    end: usize,
    at: usize,
) -> Result<(Pou, usize), Stop>
    ensures { Gives view.pou_view toks.now result (spec.pou_of (length toks.now) DEPTH (view.pou_type_view pou_type) (view.name_view name) (ahead toks.now at)) }
{
    let of_function = is_function(&pou_type);
    let (variables, at) = variables(alloc, of_function, toks, end, at)?;
    let (body, at) = body(alloc, of_function, toks, end, at)?;
    let at = expect(end_of(&pou_type), toks, end, at)?;
    let found = Pou {
        pou_type,
        name,
        variables,
        body,
    };
    Ok((found, at))
}

/// A function, from the place behind FUNCTION.
#[tactic(auto, unfolding(grammar::specs::Pous::function_pou))]
fn function_pou(
    alloc: Global,
    toks: &[Tok<'_>],
    end: usize,
    at: usize,
) -> Result<(Pou, usize), Stop>
    ensures { Gives view.pou_view toks.now result (spec.function_pou (length toks.now) DEPTH (ahead toks.now at)) }
{
    let (name, at) = named(alloc, toks, end, at)?;
    let at = expect(Mark::Colon, toks, end, at)?;
    let (answer, at) = answered(alloc, toks, end, at)?;
    pou_of(alloc, PouType::Function(answer), name, toks, end, at)
}

/// A function block or a program, from the place behind FUNCTION_BLOCK or PROGRAM.
#[tactic(auto, unfolding(grammar::specs::Pous::other_pou))]
fn other_pou(
    alloc: Global,
    pou_type: PouType,
    toks: &[Tok<'_>],
    end: usize,
    at: usize,
) -> Result<(Pou, usize), Stop>
    ensures { Gives view.pou_view toks.now result (spec.other_pou (length toks.now) DEPTH (view.pou_type_view pou_type) (ahead toks.now at)) }
{
    let (name, at) = named(alloc, toks, end, at)?;
    pou_of(alloc, pou_type, name, toks, end, at)
}

/// The POU that the word at a place begins, or None where it is neither FUNCTION, FUNCTION_BLOCK nor PROGRAM.
#[tactic(auto, unfolding(grammar::specs::Pous::pou_begun))]
pub fn pou_begun(
    alloc: Global,
    toks: &[Tok<'_>],
    end: usize,
    at: usize,
) -> Result<Option<(Pou, usize)>, Stop>
    ensures { Begins view.pou_view toks.now result (spec.pou_begun (length toks.now) DEPTH (ahead toks.now at)) }
{
    if let Some(at) = after(Mark::Function, toks, at) {
        return Ok(Some(function_pou(alloc, toks, end, at)?));
    }
    if let Some(at) = after(Mark::FunctionBlock, toks, at) {
        let pou_type = PouType::FunctionBlock;
        return Ok(Some(other_pou(alloc, pou_type, toks, end, at)?));
    }
    let Some(at) = after(Mark::Program, toks, at) else {
        return Ok(None);
    };
    Ok(Some(other_pou(alloc, PouType::Program, toks, end, at)?))
}
