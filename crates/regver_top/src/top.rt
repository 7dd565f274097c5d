// The top call: all that the program does.
ghost use Rattle.std.specs.Prelude.{◌≡◌, ◌≢◌, ◌⊎◌, Some, map, string_bytes, true, false};
ghost use Rattle.clap.specs.Words.{takes};
ghost use Rattle.command_line.specs.Asked.{asked, asked_of, gen, read_as, words_of};
ghost use Rattle.command_line.specs.Grammar.{grammar};
ghost use Rattle.command_line.specs.Subcommands.{verifies};
ghost use Rattle.outside.specs.States.{change};
ghost use Rattle.command_answers.specs.Ends.{Ends, IsComplete};
ghost use Rattle.finding_answers.specs.Verdicts.{IsOfVerdict};
ghost use Rattle.finding_commands.specs.Texts.{Texts};
ghost use Rattle.regver_top.specs.Asking.{asking, asked_in, is_refused, settled, IsShownBy, IsSavedBy};

use cdcl_watch::Watched;
use command_answers::{Status, put_last};
use command_line::{Command, FourWords, count_of, read_words};
use finding_commands::{answer_check, answer_explain};
use gen_command::{answer_gen, answer_verify};
use outside::{Shelf, Sink};
use replay_command::answer_replay;
use std::alloc::Global;

const USAGE: &str = "USAGE verify OLD NEW REL FINDING, check, replay, explain or gen\n";

// Whether the last word is one of the others.
fn repeats(words: &FourWords) -> bool
    ensures { result ≡ is_refused (asked_of verifies (words_of words.now)) }
{
    words.last == words.old || words.last == words.new || words.last == words.relation
}

// Saves a finding, unless its name is that of one of the texts.
fn answer_saving<S: Shelf, K: Sink>(
    alloc: Global,
    words: &FourWords,
    shelf: &mut S,
    out: &mut K,
) -> Status
    requires reads { (S.state shelf.old).read_failed ≡ false }
    requires puts { (K.state out.old).put_failed ≡ false }
    ensures ends { Ends (asking (settled (asked_of verifies (words_of words.now)))) result (change (S.state shelf.old) (S.state shelf.new)) (K.state out.old) (K.state out.new) }
    ensures usage { is_refused (asked_of verifies (words_of words.now)) ≡ false → result ≢ Status.Usage }
    ensures only_usage { is_refused (asked_of verifies (words_of words.now)) ≡ true → result ≢ Status.WriteFault → result ≢ Status.Memory → result ≡ Status.Usage }
{
    if repeats(words) {
        return put_last(out, USAGE, Status::Usage);
    }
    let mut decider = Watched::new();
    answer_verify(
        alloc,
        &mut decider,
        &words.old,
        &words.new,
        &words.relation,
        &words.last,
        shelf,
        out,
    )
}

// Makes revisions, where the word is a number.
fn answer_making<S: Shelf, K: Sink>(
    alloc: Global,
    count: &str,
    shelf: &mut S,
    out: &mut K,
) -> Status
    requires unfailed { (K.state out.old).put_failed ≡ false }
    ensures ends { Ends (asking (settled (gen count.now))) result (change (S.state shelf.old) (S.state shelf.new)) (K.state out.old) (K.state out.new) }
    ensures usage { is_refused (gen count.now) ≡ false → result ≢ Status.Usage }
    ensures only_usage { is_refused (gen count.now) ≡ true → result ≢ Status.WriteFault → result ≢ Status.Memory → result ≡ Status.Usage }
{
    match count_of(count) {
        Some(count) => {
            let mut decider = Watched::new();
            answer_gen(alloc, &mut decider, count, shelf, out)
        }
        None => put_last(out, USAGE, Status::Usage),
    }
}

// Carries out a command, and says how that ends.
fn answer_command<S: Shelf, K: Sink>(
    alloc: Global,
    command: &Command,
    shelf: &mut S,
    out: &mut K,
) -> Status
    requires reads { (S.state shelf.old).read_failed ≡ false }
    requires puts { (K.state out.old).put_failed ≡ false }
    ensures ends { Ends (asking (settled (read_as (Some command.now)))) result (change (S.state shelf.old) (S.state shelf.new)) (K.state out.old) (K.state out.new) }
    ensures usage { is_refused (read_as (Some command.now)) ≡ false → result ≢ Status.Usage }
    ensures only_usage { is_refused (read_as (Some command.now)) ≡ true → result ≢ Status.WriteFault → result ≢ Status.Memory → result ≡ Status.Usage }
{
    match command {
        Command::Check(words) => answer_check(
            alloc,
            &words.old,
            &words.new,
            &words.relation,
            &words.last,
            shelf,
            out,
        ),
        Command::Explain(words) => answer_explain(
            alloc,
            &words.old,
            &words.new,
            &words.relation,
            &words.last,
            shelf,
            out,
        ),
        Command::Gen(count) => answer_making(alloc, count, shelf, out),
        Command::Replay(words) => answer_replay(
            alloc,
            &words.old,
            &words.new,
            &words.relation,
            &words.last,
            shelf,
            out,
        ),
        Command::Verify(words) => answer_saving(alloc, words, shelf, out),
    }
}

// Answers the words, and says how that ends.
fn answer_words<S: Shelf, K: Sink>(
    alloc: Global,
    words: Vec<String>,
    shelf: &mut S,
    out: &mut K,
) -> Status
    requires reads { (S.state shelf.old).read_failed ≡ false }
    requires puts { (K.state out.old).put_failed ≡ false }
    ensures ends { Ends (asking (asked_in words.items)) result (change (S.state shelf.old) (S.state shelf.new)) (K.state out.old) (K.state out.new) }
    ensures usage { takes grammar (map string_bytes words.items) ≡ true → is_refused (asked (map string_bytes words.items)) ≡ false → result ≢ Status.Usage }
    ensures only_usage { (takes grammar (map string_bytes words.items) ≡ false) ⊎ (is_refused (asked (map string_bytes words.items)) ≡ true) → result ≢ Status.WriteFault → result ≢ Status.Memory → result ≡ Status.Usage }
{
    match read_words(alloc, words) {
        Ok(None) => put_last(out, USAGE, Status::Usage),
        Ok(Some(command)) => answer_command(alloc, &command, shelf, out),
        Err(_) => put_last(out, "MEMORY\n", Status::Memory),
    }
}

/// Does all that the program does, and says how it ends. The words begin with the program's name.
pub fn regver<S: Shelf, K: Sink>(
    alloc: Global,
    words: Vec<String>,
    shelf: &mut S,
    out: &mut K,
) -> Status
    // No read and no put has failed before, and none follows one that failed.
    requires reads { (S.state shelf.old).read_failed ≡ false }
    requires puts { (K.state out.old).put_failed ≡ false }

    // What is before and what is after is that of what the words ask for, with this status (`kept`, `untouched`, `left`, `answer`, `read_fault`,
    // `write_fault`, `reads`, `writes`, `faults`). No file changes but the finding that `verify` writes and the four files of `gen`, and none where
    // a read failed or the command line is none that there is. A finding is as at entry, or what is told of it is a part of a finding on what the
    // texts state; a text that `gen` makes is as at entry, or what is told of it is a front of the text. The bytes on the sink and the status are
    // those of a report on the texts of the files that the words name, where these are told, or of how the program is used. A fault comes only
    // where a count rose, and no count falls.
    ensures ends { Ends (asking (asked_in words.items)) result (change (S.state shelf.old) (S.state shelf.new)) (K.state out.old) (K.state out.new) }

    // Where the status is that of VALID, the finding is valid by what the texts state, its verdict with what it says of reach, or the report on it,
    // is what was put, and the verdict is that of the model, or SPENT with its log. `REACH r of DEPTH` is put behind a verdict only where r is the
    // reach of the model, and `REACH r spent` only where the finding holds the log that spends the query for one row more.
    ensures shown { let asked = asked_in words.items in (t : Texts) → (asking asked).Tells (S.state shelf.old) t
        → result ≡ Status.Valid → IsShownBy asked t (K.state out.old).taken (K.state out.new).taken }

    // Where the answer is a verdict, a finding was saved that is judged valid with it and with the line on reach behind it. The verdict is that of
    // the model, or SPENT with its log; the reach is that of the model, or the finding holds the log that spends the query for one row more.
    ensures saved { let asked = asked_in words.items in (t : Texts) → (asking asked).Tells (S.state shelf.old) t
        → IsOfVerdict result → IsSavedBy (change (S.state shelf.old) (S.state shelf.new)) asked t result (K.state out.old).taken (K.state out.new).taken }

    // USAGE comes exactly where clap does not take the words, `verify` would write one of the files that it reads, or the word of `gen` is
    // no number from 1 to 341, unless the sink or memory gives up.
    ensures usage { takes grammar (map string_bytes words.items) ≡ true → is_refused (asked (map string_bytes words.items)) ≡ false → result ≢ Status.Usage }
    ensures only_usage { (takes grammar (map string_bytes words.items) ≡ false) ⊎ (is_refused (asked (map string_bytes words.items)) ≡ true) → result ≢ Status.WriteFault → result ≢ Status.Memory → result ≡ Status.Usage }

    // Where no count rose, the answer is the whole of what is asked for, or memory was wanting.
    ensures complete { IsComplete (asking (asked_in words.items)) result (change (S.state shelf.old) (S.state shelf.new)) (K.state out.old) (K.state out.new) }
{
    answer_words(alloc, words, shelf, out)
}
