// Whole relation files.
ghost use Rattle.std.specs.Prelude.{◌≡◌, List, [], length, IfOk, IfErr};
ghost use Rattle.grammar.specs.Reading.{Gives, ahead};
ghost use Rattle.relation_lines.specs.Lines.{LineData};
ghost use Rattle.relation_lines.specs.Prints.{print_lines};
ghost use Rattle.relation_lines.specs.Levels.{AreLinesLevelled};
ghost use Rattle.relation_lines.specs.View as view;
ghost use Rattle.relation_lines.specs.Reading as spec;
ghost use Rattle.relation_lines.specs.Reading.{GivesLines};
ghost use Rattle.relation_lines.specs.Whole.{AreLines, IsLinesFault};

use crate::content::content;
use crate::line::Line;
use crate::word::first_word_of;
use grammar::{DEPTH, Stop};
use rules::Fault;
use source_tree::{Mark, Tok};
use st_reader::{expect, named, refuse, token};
use std::alloc::Global;
use token_rules::first_fault;

/// The line at a place, and the place behind it.
#[tactic(auto, unfolding(crate::specs::Reading::line))]
pub fn read_line(
    alloc: Global,
    toks: &[Tok<'_>],
    end: usize,
    at: usize,
) -> Result<(Line, usize), Stop>
    ensures { Gives view.line_view toks.now result (spec.line (length toks.now) DEPTH (ahead toks.now at)) }
{
    let (word, next) = named(alloc, toks, end, at)?;
    let Some(first) = first_word_of(word.text.as_str()) else {
        return Err(refuse(toks, end, at));
    };
    let (content, next) = content(alloc, first, toks, end, next)?;
    let next = expect(Mark::Semicolon, toks, end, next)?;
    let found = Line {
        at: word.at,
        content,
    };
    Ok((found, next))
}

/// Whether no token stands at a place.
pub fn has_ended(toks: &[Tok<'_>], at: usize) -> bool
    ensures { result ≡ spec.has_ended (ahead toks.now at) }
{
    token(toks, at).is_none()
}

/// The lines that follow.
fn lines(
    alloc: Global,
    toks: &[Tok<'_>],
    end: usize,
    mut at: usize,
) -> Result<(Vec<Line>, usize), Stop>
    ensures { Gives (λ v. view.lines_view v.items) toks.now result (spec.lines (length toks.now) DEPTH (length toks.now) [] (ahead toks.now at)) }
{
    let mut found = Vec::new(alloc);
    for _turn in 0..toks.len() {
        if has_ended(toks, at) {
            return Ok((found, at));
        }
        let (next, behind) = read_line(alloc, toks, end, at)?;
        found.push(next)?;
        at = behind;
    }
    Ok((found, at))
}

/// All the tokens as lines, or why reading stopped.
#[tactic(auto, unfolding(crate::specs::Reading::file))]
fn whole(alloc: Global, toks: &[Tok<'_>], end: usize) -> Result<Vec<Line>, Stop>
    ensures { GivesLines result (spec.file (length toks.now) DEPTH (ahead toks.now 0)) }
{
    let (found, at) = lines(alloc, toks, end, 0)?;
    match token(toks, at) {
        Some(next) => Err(Stop::NoTree(next.at)),
        None => Ok(found),
    }
}

/// The lines that the tokens of a relation file are, whose text has a length of `end` bytes.
///
/// # Errors
///
/// X1 and G2 come first, by place; then G1, at the first token with which no relation file goes on, else at `end`.
pub fn parse_lines(alloc: Global, toks: &[Tok<'_>], end: usize) -> Result<Vec<Line>, Fault>
    ensures read { IfOk result (λ lines. AreLines toks.now (view.lines_view lines.items)) }
    ensures refused { IfErr result (IsLinesFault toks.now) }
{
    if let Some(refusal) = first_fault(toks) {
        return Err(Fault::Refused(refusal));
    }
    Ok(whole(alloc, toks, end)?)
}

/// At most one list of levelled lines prints a list of symbols.
pub fn one_list()
    ensures { (ls ms : List LineData) → AreLinesLevelled ls → AreLinesLevelled ms → print_lines ls ≡ print_lines ms → ls ≡ ms }
{}
