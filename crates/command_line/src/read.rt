// The words, read by clap.
ghost use Rattle.std.specs.Prelude.{◌≡◌, ◌↔◌, ◌∷◌, [], IfOk, IsErr, None, is_some, map, option_map, string_bytes};
ghost use Rattle.std.specs.Option.{option_map_or};
ghost use Rattle.clap.specs.Words.{found_of, kind_of, rows_of, subcommand_rows_of, takes};
ghost use Rattle.command_line.specs.Asked.{asked, asked_by, count_in, read_as, subcommand_asked, usage, words_in, words_of};
ghost use Rattle.command_line.specs.Grammar.{grammar};
ghost use Rattle.command_line.specs.Subcommands.{checks, explains, generates, replays, verifies};
ghost use Rattle.command_line.specs.Plain.{plainly_asked};

use crate::grammar::program_command;
use crate::{Command, FourWords};
use clap::ArgMatches;
use clap::error::ErrorKind;
use std::alloc::{AllocError, Global};

// The words of a subcommand, by their places.
fn words_of(alloc: Global, matches: &ArgMatches<'_>) -> Result<Option<FourWords>, AllocError>
    ensures { IfOk result (λ words. option_map words_of words ≡ words_in (rows_of (found_of matches.now))) }
{
    let Some(old) = matches.get_str("OLD") else {
        return Ok(None);
    };
    let Some(new) = matches.get_str("NEW") else {
        return Ok(None);
    };
    let Some(relation) = matches.get_str("REL") else {
        return Ok(None);
    };
    let Some(last) = matches.get_str("LAST") else {
        return Ok(None);
    };
    Ok(Some(FourWords {
        old: String::from_str(alloc, old)?,
        new: String::from_str(alloc, new)?,
        relation: String::from_str(alloc, relation)?,
        last: String::from_str(alloc, last)?,
    }))
}

// The word of the subcommand that takes a number.
fn count_of(alloc: Global, matches: &ArgMatches<'_>) -> Result<Option<String>, AllocError>
    ensures { IfOk result (λ count. option_map (λ word. string_bytes word ∷ []) count ≡ count_in (rows_of (found_of matches.now))) }
{
    match matches.get_str("N") {
        Some(count) => Ok(Some(String::from_str(alloc, count)?)),
        None => Ok(None),
    }
}

fn check_of(words: Option<FourWords>) -> Option<Command>
    ensures { read_as result ≡ asked_by checks (option_map words_of words) }
{
    match words {
        Some(words) => Some(Command::Check(words)),
        None => None,
    }
}

fn explain_of(words: Option<FourWords>) -> Option<Command>
    ensures { read_as result ≡ asked_by explains (option_map words_of words) }
{
    match words {
        Some(words) => Some(Command::Explain(words)),
        None => None,
    }
}

fn gen_of(count: Option<String>) -> Option<Command>
    ensures { read_as result ≡ asked_by generates (option_map (λ word. string_bytes word ∷ []) count) }
{
    match count {
        Some(count) => Some(Command::Gen(count)),
        None => None,
    }
}

fn replay_of(words: Option<FourWords>) -> Option<Command>
    ensures { read_as result ≡ asked_by replays (option_map words_of words) }
{
    match words {
        Some(words) => Some(Command::Replay(words)),
        None => None,
    }
}

fn verify_of(words: Option<FourWords>) -> Option<Command>
    ensures { read_as result ≡ asked_by verifies (option_map words_of words) }
{
    match words {
        Some(words) => Some(Command::Verify(words)),
        None => None,
    }
}

// The command that the subcommand stands for.
fn command_of(alloc: Global, matches: &ArgMatches<'_>) -> Result<Option<Command>, AllocError>
    ensures { IfOk result (λ command. read_as command ≡ option_map_or subcommand_asked (subcommand_rows_of matches.now) usage) }
{
    match matches.subcommand() {
        Some(("check", given)) => Ok(check_of(words_of(alloc, given)?)),
        Some(("explain", given)) => Ok(explain_of(words_of(alloc, given)?)),
        Some(("gen", given)) => Ok(gen_of(count_of(alloc, given)?)),
        Some(("replay", given)) => Ok(replay_of(words_of(alloc, given)?)),
        Some(("verify", given)) => Ok(verify_of(words_of(alloc, given)?)),
        _ => Ok(None),
    }
}

// Words that clap refuses ask for no command.
fn refused(error: &clap::Error) -> Result<Option<Command>, AllocError>
    ensures none { IfOk result (λ command. command ≡ None) }
    ensures memory { IsErr result ↔ (kind_of error.now ≡ ErrorKind.OutOfMemory) }
{
    match error.kind() {
        ErrorKind::OutOfMemory => Err(AllocError),
        _ => Ok(None),
    }
}

/// Reads the words of the command line, of which the first is the program's name. There is no
/// command where they ask for none of those that there are; the one error is that memory is wanting.
pub fn read_words(alloc: Global, words: Vec<String>) -> Result<Option<Command>, AllocError>
    // There is a command exactly where clap takes the words.
    ensures taken { IfOk result (λ command. is_some command ≡ takes grammar (map string_bytes words.items)) }

    // It is the one that the words ask for, and its texts are their very bytes.
    ensures asked { IfOk result (λ command. read_as command ≡ asked (map string_bytes words.items)) }

    // The plain rules ask for the same.
    ensures plain { IfOk result (λ command. read_as command ≡ plainly_asked (map string_bytes words.items)) }
{
    match program_command(alloc)?.try_get_matches_from(words.as_slice()) {
        Ok(matches) => command_of(alloc, &matches),
        Err(error) => refused(&error),
    }
}
