// The three texts.
ghost use Rattle.std.specs.Prelude.{◌≡◌, ◌++◌, OnOk, IfOk};
ghost use Rattle.generated_texts.specs.Texts.{old_text, new_text, relation_text, AreGenerated};

use crate::lines::push_lines;
use std::alloc::{AllocError, Global};

/// The texts of two programs and of the relation between them.
#[derive(Drop)]
pub struct GeneratedTexts {
    pub old: Vec<u8>,
    pub new: Vec<u8>,
    pub relation: Vec<u8>,
}

fn old_text(alloc: Global, count: u32) -> Result<Vec<u8>, AllocError>
    ensures { IfOk result (λ text. text.items ≡ old_text count) }
{
    let mut text = Vec::new(alloc);
    text.extend_from_slice(b"PROGRAM M\n")?;
    push_lines(
        &mut text,
        "VAR_INPUT a# : BOOL; END_VAR VAR_OUTPUT q# : BOOL; END_VAR VAR m# : BOOL; END_VAR\n",
        count,
    )?;
    push_lines(&mut text, "q# := a# AND NOT m#; m# := a#;\n", count)?;
    text.extend_from_slice(b"END_PROGRAM\n")?;
    Ok(text)
}

fn new_text(alloc: Global, count: u32) -> Result<Vec<u8>, AllocError>
    ensures { IfOk result (λ text. text.items ≡ new_text count) }
{
    let mut text = Vec::new(alloc);
    text.extend_from_slice(b"PROGRAM M\n")?;
    push_lines(
        &mut text,
        "VAR_INPUT a# : BOOL; END_VAR VAR_OUTPUT q# : BOOL; END_VAR VAR t# : R_TRIG; END_VAR\n",
        count,
    )?;
    push_lines(&mut text, "t#(CLK := a#, Q => q#);\n", count)?;
    text.extend_from_slice(b"END_PROGRAM\n")?;
    Ok(text)
}

fn relation_text(alloc: Global, count: u32) -> Result<Vec<u8>, AllocError>
    ensures { IfOk result (λ text. text.items ≡ relation_text count) }
{
    let mut text = Vec::new(alloc);
    text.extend_from_slice(b"RELATION 1;\nFAULTS EQUAL;\nDEPTH 1;\nCONFLICTS 10000;\n")?;
    push_lines(&mut text, "INPUT a# = a#;\n", count)?;
    push_lines(&mut text, "RELATE old.q# = new.q#;\n", count)?;
    push_lines(&mut text, "INVARIANT old.m# = new.t#.M;\n", count)?;
    Ok(text)
}

/// The texts of OLD, NEW and REL with so many inputs.
pub fn generate(alloc: Global, count: u32) -> Result<GeneratedTexts, AllocError>
    ensures { IfOk result (AreGenerated count) }
{
    Ok(GeneratedTexts {
        old: old_text(alloc, count)?,
        new: new_text(alloc, count)?,
        relation: relation_text(alloc, count)?,
    })
}
