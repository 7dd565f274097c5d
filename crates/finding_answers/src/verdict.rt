// What is said of a verdict and of reach: as text, as a status, and on the sink.
ghost use Rattle.std.specs.Prelude.{false, ◌≡◌, ◌≢◌, ◌≤◌, ◌∷◌, ℕ, List, drop, IfOk, string_bytes};
ghost use Rattle.outside.specs.Causes.{Rose};
ghost use Rattle.command_answers.specs.Answers.{Answers};
ghost use Rattle.finding_answers.specs.Verdicts.{verdict_line, verdict_status, verdict_report, reach_line, valid_line};

use crate::lines::put_lines;
use command_answers::Status;
use finding_lines::{Conclusion, show_conclusion};
use itoa::Buffer;
use judgement::{Concluded, Reach};
use outside::Sink;
use std::alloc::{AllocError, Global};

// A text without the space that it begins with.
fn without_space(alloc: Global, text: &str) -> Result<String, AllocError>
    requires { (rest : List ℕ) × (text.now ≡ 32 ∷ rest) }
    ensures { IfOk result (λ shorter. string_bytes shorter ≡ drop 1 text.now) }
{
    match text.strip_prefix(' ') {
        Some(rest) => String::from_str(alloc, rest),
        None => String::from_str(alloc, text),
    }
}

// The line that answers a verdict.
fn verdict_line(alloc: Global, verdict: Conclusion) -> Result<String, AllocError>
    ensures { IfOk result (λ line. string_bytes line ≡ verdict_line verdict) }
{
    let mut text = String::new(alloc);
    show_conclusion(&mut text, verdict)?;
    let mut line = without_space(alloc, text.as_str())?;
    line.push_str("\n")?;
    Ok(line)
}

/// The line on a finding that is valid with this verdict.
pub(crate) fn valid_line(alloc: Global, verdict: Conclusion) -> Result<String, AllocError>
    ensures { IfOk result (λ line. string_bytes line ≡ valid_line verdict) }
{
    let words = verdict_line(alloc, verdict)?;
    let mut line = String::from_str(alloc, "VALID ")?;
    line.push_str(words.as_str())?;
    Ok(line)
}

/// The line on what a finding says of reach, or no text where it says nothing.
pub(crate) fn reach_line(alloc: Global, depth: u64, reach: Reach) -> Result<String, AllocError>
    ensures { IfOk result (λ line. string_bytes line ≡ reach_line depth reach) }
{
    let mut digits = Buffer::new();
    match reach {
        Reach::Untold | Reach::Unwalked => Ok(String::new(alloc)),
        Reach::Greatest(rows) => {
            let mut line = String::from_str(alloc, "REACH ")?;
            line.push_str(digits.format(rows))?;
            line.push_str(" of ")?;
            line.push_str(digits.format(depth))?;
            line.push_str("\n")?;
            Ok(line)
        }
        Reach::AtLeast(rows) => {
            let mut line = String::from_str(alloc, "REACH ")?;
            line.push_str(digits.format(rows))?;
            line.push_str(" spent\n")?;
            Ok(line)
        }
    }
}

// The status of a verdict.
fn verdict_status(verdict: Conclusion) -> Status
    ensures { result ≡ verdict_status verdict }
{
    match verdict {
        Conclusion::Vacuous => Status::Vacuous,
        Conclusion::Related(..) => Status::Related,
        Conclusion::Different(..) => Status::Different,
        Conclusion::Open(..) => Status::Open,
        Conclusion::Spent(..) => Status::Spent,
    }
}

/// Puts a verdict, and right behind it, by a put of its own, what is said of reach on a relation of such a DEPTH.
pub fn put_verdict<K: Sink>(alloc: Global, depth: u64, concluded: Concluded, out: &mut K) -> Status
    requires unfailed { (K.state out.old).put_failed ≡ false }
    ensures answer { Answers (λ r. r ≡ verdict_report depth concluded) ⊥ result (K.state out.old).taken (K.state out.new).taken }
    ensures usage { result ≢ Status.Usage }
    ensures read_fault { result ≢ Status.ReadFault }
    ensures write_fault { result ≡ Status.WriteFault → Rose (K.state out.old).faults (K.state out.new).faults }
    ensures faults { (K.state out.old).faults ≤ (K.state out.new).faults }
{
    let line = verdict_line(alloc, concluded.verdict);
    let reach = reach_line(alloc, depth, concluded.reach);
    put_lines(out, line, reach, verdict_status(concluded.verdict))
}
