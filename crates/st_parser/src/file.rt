// Whole files (IEC 61131-3, 2.5 and annex B).
ghost use Rattle.std.specs.Prelude.{◌≡◌, [], length, option_map, IfOk, IfErr};
ghost use Rattle.source_tree.specs.SyntaxView as view;
ghost use Rattle.source_tree.specs.SyntaxView.{file_view};
ghost use Rattle.source_tree.specs.Syntax.{FileData};
ghost use Rattle.source_tree.specs.Prints.{print_file};
ghost use Rattle.source_tree.specs.Levels.{IsFileLevelled};
ghost use Rattle.grammar.specs.Files as spec;
ghost use Rattle.grammar.specs.Files.{GivesFile};
ghost use Rattle.grammar.specs.WholeFile.{IsFile, IsFileFault};
ghost use Rattle.grammar.specs.Reading.{Begins, Gives, ahead};

use file_reader::{pou_begun, types};
use grammar::{DEPTH, Stop};
use rules::Fault;
use source_tree::{Item, Mark, SourceFile, Tok};
use st_reader::{after, token};
use std::alloc::Global;
use token_rules::first_fault;

/// What the word at a place begins, types or a POU, or None where it begins neither.
#[tactic(auto, unfolding(grammar::specs::Files::item))]
fn item(
    alloc: Global,
    toks: &[Tok<'_>],
    end: usize,
    at: usize,
) -> Result<Option<(Item, usize)>, Stop>
    ensures { Begins view.item_view toks.now result (spec.item (length toks.now) DEPTH (ahead toks.now at)) }
{
    if let Some(at) = after(Mark::Type, toks, at) {
        let (found, at) = types(alloc, toks, end, at)?;
        return Ok(Some((Item::Types(found), at)));
    }
    let Some((found, at)) = pou_begun(alloc, toks, end, at)? else {
        return Ok(None);
    };
    Ok(Some((Item::Pou(found), at)))
}

/// The types and POUs that follow.
fn items(
    alloc: Global,
    toks: &[Tok<'_>],
    end: usize,
    mut at: usize,
) -> Result<(Vec<Item>, usize), Stop>
    ensures { Gives (λ v. view.items_view v.items) toks.now result (spec.items (length toks.now) DEPTH (length toks.now) [] (ahead toks.now at)) }
{
    let mut found = Vec::new(alloc);
    for _turn in 0..toks.len() {
        let Some((next, behind)) = item(alloc, toks, end, at)? else {
            return Ok((found, at));
        };
        found.push(next)?;
        at = behind;
    }
    Ok((found, at))
}

/// All the tokens as a file, or why reading stopped.
#[tactic(auto, unfolding(grammar::specs::Files::file))]
fn whole(alloc: Global, toks: &[Tok<'_>], end: usize) -> Result<SourceFile, Stop>
    ensures { GivesFile result (spec.file (length toks.now) DEPTH (ahead toks.now 0)) }
{
    let (items, at) = items(alloc, toks, end, 0)?;
    match token(toks, at) {
        Some(next) => Err(Stop::NoTree(next.at)),
        None => Ok(SourceFile { items }),
    }
}

/// The file that tokens are, whose text has a length of `end` bytes.
///
/// # Errors
///
/// X1 and G2 come first, by place; then G1, at the first token with which no file goes on, else at `end`.
pub fn parse_file(alloc: Global, toks: &[Tok<'_>], end: usize) -> Result<SourceFile, Fault>
    ensures read { IfOk result (λ f. IsFile toks.now (file_view f)) }
    ensures refused { IfErr result (IsFileFault toks.now) }
{
    if let Some(refusal) = first_fault(toks) {
        return Err(Fault::Refused(refusal));
    }
    Ok(whole(alloc, toks, end)?)
}

/// At most one levelled file prints a list of symbols.
pub fn one_file()
    ensures { (f g : FileData) → IsFileLevelled f → IsFileLevelled g → print_file f ≡ print_file g → f ≡ g }
{}
