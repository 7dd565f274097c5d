// The numbers that stand in the texts, and how these write names.
use command_files::tokens_of;
use plc_types::Value;
use rules::Fault;
use source_tree::{Mark, Terminal, Tok};
use std::alloc::Global;
use suggestion::{Spelling, Wording, numbers_of};

// The tokens of a relation behind its first four lines, whose numbers are settings.
fn behind_settings<'a, 'b>(toks: &'a [Tok<'b>]) -> &'a [Tok<'b>] {
    let mut count = 0usize;
    for (place, tok) in toks.iter().enumerate() {
        if tok.terminal == Terminal::Mark(Mark::Semicolon) {
            count = count.wrapping_add(1);
        }
        if count == 4 {
            return &toks[place..];
        }
    }
    &[]
}

fn add_numbers_of_relation(
    alloc: Global,
    text: &[u8],
    numbers: &mut Vec<Value>,
) -> Result<(), Fault> {
    let toks = tokens_of(alloc, text)?;
    numbers_of(behind_settings(toks.as_slice()), numbers)?;
    Ok(())
}

// Adds the numbers of the text of a program, and answers how it writes names.
fn read_text(alloc: Global, text: &[u8], numbers: &mut Vec<Value>) -> Result<Spelling, Fault> {
    let toks = tokens_of(alloc, text)?;
    numbers_of(toks.as_slice(), numbers)?;
    Ok(Spelling::of_tokens(alloc, toks.as_slice())?)
}

/// The numbers among the tokens of three texts, but for the settings of the relation, and the names of the programs. Of what it answers
/// nothing is asked.
pub fn wording_in(
    alloc: Global,
    old: &[u8],
    new: &[u8],
    relation: &[u8],
) -> Result<Wording, Fault> {
    let mut numbers = Vec::new(alloc);
    let old = read_text(alloc, old, &mut numbers)?;
    let new = read_text(alloc, new, &mut numbers)?;
    add_numbers_of_relation(alloc, relation, &mut numbers)?;
    Ok(Wording { numbers, old, new })
}
