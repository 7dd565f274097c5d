// The command lines that there are, as clap is told of them.
ghost use Rattle.std.specs.Prelude.{◌≡◌, IfOk};
ghost use Rattle.clap.specs.Words.{app_of, with_subcommand};
ghost use Rattle.command_line.specs.Grammar.{AddsWord, grammar, files_app, with_count};

use clap::{Arg, Command};
use std::alloc::{AllocError, Global};

// Adds a word that is required.
fn with_word<'a>(
    alloc: Global,
    command: Command<'a>,
    name: &'a str,
) -> Result<Command<'a>, AllocError>
    ensures { IfOk result (λ behind. AddsWord command.entry name.now behind) }
{
    let word = Arg::new(alloc, name).required(true);
    command.arg(word)
}

// Adds a subcommand `NAME OLD NEW REL LAST`.
fn with_files<'a>(
    alloc: Global,
    program: Command<'a>,
    name: &'a str,
) -> Result<Command<'a>, AllocError>
    ensures { IfOk result (λ command. app_of command ≡ with_subcommand (app_of program.entry) (files_app name.now).top) }
{
    let files = Command::new(alloc, name);
    let files = with_word(alloc, files, "OLD")?;
    let files = with_word(alloc, files, "NEW")?;
    let files = with_word(alloc, files, "REL")?;
    let files = with_word(alloc, files, "LAST")?;
    program.subcommand(files)
}

// Adds the subcommand `gen N`.
fn with_count<'a>(alloc: Global, program: Command<'a>) -> Result<Command<'a>, AllocError>
    ensures { IfOk result (λ command. app_of command ≡ with_count (app_of program.entry)) }
{
    let one = with_word(alloc, Command::new(alloc, "gen"), "N")?;
    program.subcommand(one)
}

/// The program's command line: one of its subcommands, and neither help nor version.
pub(crate) fn program_command<'a>(alloc: Global) -> Result<Command<'a>, AllocError>
    ensures { IfOk result (λ command. app_of command ≡ grammar) }
{
    let program = Command::new(alloc, "regver")
        .disable_help_flag(true)
        .disable_help_subcommand(true)
        .subcommand_required(true);
    let program = with_files(alloc, program, "check")?;
    let program = with_files(alloc, program, "explain")?;
    let program = with_count(alloc, program)?;
    let program = with_files(alloc, program, "replay")?;
    with_files(alloc, program, "verify")
}
