// The passes, one after the other.
ghost use Rattle.std.specs.Prelude.{◌≡◌, ℕ, List, IfOk, IfErr};
ghost use Rattle.program_tree.specs.View.{program_view};
ghost use Rattle.source_tree.specs.SyntaxView.{file_view};
ghost use Rattle.front_end.specs.StandardBlocks.{prelude_text};
ghost use Rattle.front_end.specs.Texts.{HasTokens, HasNoTokens, HasTree, HasNoTree, HasFile, HasNoFile, AreNamesSound, StatesProgram, StatesNoProgram};
ghost use Rattle.rules.specs.Faults.{IfRefused};
ghost use Rattle.scan_model.specs.InRange.{IsFitToRun};
ghost use Rattle.st_types.specs.CheckedFiles.{file_checked};
ghost use Rattle.typed_programs.specs.Programs.{IsTypedProgram};

use crate::prelude::prelude;
use program_tree::Program;
use rules::{Fault, Refusal, Rule};
use source_tree::{SourceFile, Tok};
use st_lexer::lex;
use st_names::{Resolved, resolve};
use st_parser::parse_file;
use st_types::{Checked, check};
use std::alloc::Global;

// How many bytes a text may have.
const LIMIT: usize = 1_048_576;

/// The tokens of a text of at most 1,048,576 bytes, or the first rule of size and tokens that it breaks.
pub fn tokens_of(alloc: Global, text: &[u8]) -> Result<Vec<Tok<'_>>, Fault>
    ensures tokens { IfOk result (λ v. HasTokens text.now v.items) }
    ensures refused { IfErr result (IfRefused (HasNoTokens text.now)) }
{
    if text.len() > LIMIT {
        return Err(Fault::Refused(Refusal {
            rule: Rule::TooLong,
            at: 0,
        }));
    }
    lex(alloc, text)
}

// The tree of a text, or the first rule up to the grammar that it breaks.
fn tree_of(alloc: Global, text: &[u8]) -> Result<SourceFile, Fault>
    ensures tree { IfOk result (λ f. HasTree text.now (file_view f)) }
    ensures refused { IfErr result (IfRefused (HasNoTree text.now)) }
{
    let toks = tokens_of(alloc, text)?;
    Ok(parse_file(alloc, &toks, text.len())?)
}

// The tree of the prelude. Its text is fixed, and tests show that it has a tree.
fn blocks(alloc: Global) -> Result<SourceFile, Fault>
    ensures tree { IfOk result (λ f. HasTree prelude_text (file_view f)) }
    ensures refused { IfErr result (IfRefused (HasNoTree prelude_text)) }
{
    tree_of(alloc, prelude())
}

/// The file of a text: the blocks of the prelude, and then its own items; or the first rule up to the grammar that it breaks, and where it
/// breaks none, the first that the prelude breaks.
pub fn file_of(alloc: Global, text: &[u8]) -> Result<SourceFile, Fault>
    ensures file { IfOk result (λ f. HasFile text.now (file_view f)) }
    ensures refused { IfErr result (IfRefused (HasNoFile text.now)) }
{
    let mut own = tree_of(alloc, text)?;
    let mut file = blocks(alloc)?;
    file.items.append(&mut own.items)?;
    Ok(file)
}

/// A text's file with its names bound, or the first rule on names that the file breaks.
pub fn names_of(alloc: Global, file: &SourceFile) -> Result<Resolved<'_>, Fault>
    ensures file { IfOk result (λ n. file_view n.file.now ≡ file_view file.now) }
    ensures names { IfOk result (λ n. AreNamesSound (file_view n.file.now)) }
    ensures refused { IfErr result (λ e. (text : List ℕ) → HasFile text (file_view file.now) → IfRefused (StatesNoProgram text) e) }
{
    resolve(alloc, file)
}

/// A text's file whose names are bound, with its types checked, or the first rule on types that the file breaks, or M2.
pub fn checked_of<'p>(alloc: Global, names: &'p Resolved<'p>) -> Result<Checked<'p>, Fault>
    requires { AreNamesSound (file_view names.now.file.now) }
    ensures file { IfOk result (λ c. file_checked c ≡ file_view names.now.file.now) }
    ensures refused { IfErr result (λ e. (text : List ℕ) → HasFile text (file_view names.now.file.now) → IfRefused (StatesNoProgram text) e) }
{
    check(alloc, names)
}

/// The program of a text's file that breaks no rule up to M2; or M5 where a POU that may run has more than 2^24 cells. Fails too where memory
/// runs out.
pub fn program_of(alloc: Global, checked: Checked<'_>) -> Result<Program, Fault>
    requires { AreNamesSound (file_checked checked) }
    ensures program { IfOk result (λ p. (text : List ℕ) → HasFile text (file_checked checked.entry) → StatesProgram text (program_view p)) }
    ensures fit { IfOk result (λ p. IsFitToRun (program_view p)) }
    ensures typed { IfOk result (λ p. (text : List ℕ) → HasFile text (file_checked checked.entry) → IsTypedProgram (program_view p)) }
    ensures refused { IfErr result (λ e. (text : List ℕ) → HasFile text (file_checked checked.entry) → IfRefused (StatesNoProgram text) e) }
{
    checked.program(alloc)
}

// The program of a text's file whose names are bound, or the first rule on types that the file breaks, or M2 or M5.
fn accept_names(alloc: Global, names: &Resolved<'_>) -> Result<Program, Fault>
    requires { AreNamesSound (file_view names.now.file.now) }
    ensures program { IfOk result (λ p. (text : List ℕ) → HasFile text (file_view names.now.file.now) → StatesProgram text (program_view p)) }
    ensures fit { IfOk result (λ p. IsFitToRun (program_view p)) }
    ensures typed { IfOk result (λ p. (text : List ℕ) → HasFile text (file_view names.now.file.now) → IsTypedProgram (program_view p)) }
    ensures refused { IfErr result (λ e. (text : List ℕ) → HasFile text (file_view names.now.file.now) → IfRefused (StatesNoProgram text) e) }
{
    let checked = checked_of(alloc, names)?;
    program_of(alloc, checked)
}

// The program of a text's file, or the first rule on names or types that the file breaks, or M2 or M5.
fn accept_file(alloc: Global, file: &SourceFile) -> Result<Program, Fault>
    ensures program { IfOk result (λ p. (text : List ℕ) → HasFile text (file_view file.now) → StatesProgram text (program_view p)) }
    ensures fit { IfOk result (λ p. IsFitToRun (program_view p)) }
    ensures typed { IfOk result (λ p. (text : List ℕ) → HasFile text (file_view file.now) → IsTypedProgram (program_view p)) }
    ensures refused { IfErr result (λ e. (text : List ℕ) → HasFile text (file_view file.now) → IfRefused (StatesNoProgram text) e) }
{
    let names = names_of(alloc, file)?;
    accept_names(alloc, &names)
}

/// The program that a text states, or the first rule that it breaks of those on size, tokens, words that are left
/// out, nesting, grammar, names, types, the count of cells, and that of the cells of each POU that may run, in this order of passes. The program is
/// typed: no pass that follows has to ask.
pub fn accept_text(alloc: Global, text: &[u8]) -> Result<Program, Fault>
    ensures program { IfOk result (λ p. StatesProgram text.now (program_view p)) }
    ensures fit { IfOk result (λ p. IsFitToRun (program_view p)) }
    ensures typed { IfOk result (λ p. IsTypedProgram (program_view p)) }
    ensures refused { IfErr result (IfRefused (StatesNoProgram text.now)) }
{
    let file = file_of(alloc, text)?;
    accept_file(alloc, &file)
}
