// The door `accept`: a text is accepted, or refused by the rule and at the place that its mark names.
ghost use Rattle.std.specs.Prelude.{IfOk};
ghost use Rattle.program_tree.specs.View.{program_view};
ghost use Rattle.scan_model.specs.InRange.{IsFitToRun};

use case_files::{
    Case, CaseFault, Marked, Mismatch, Word, compare, malformed, program_of, refused_at,
};
use front_end::accept_text;
use program_tree::Program;
use rules::Fault;
use std::alloc::Global;

/// Runs a case of this door.
pub fn run_accept(
    alloc: Global,
    head: &Case,
    case: &Case,
    found: &mut Vec<Mismatch>,
) -> Result<(), CaseFault> {
    let text = program_of(alloc, head, case, Word::Accept)?;
    let expected = expected_answer(alloc, &text)?;
    let got = match accept_text(alloc, &text.bytes) {
        Ok(_) => String::from_str(alloc, "accepted")?,
        Err(Fault::Refused(refusal)) => {
            refused_at(alloc, refusal.rule.name(), refusal.at, &text.bytes)?
        }
        Err(Fault::Memory) => return Err(CaseFault::Memory),
    };
    compare(
        alloc,
        "answer to the text",
        expected.as_str(),
        got.as_str(),
        found,
    )?;
    Ok(())
}

fn expected_answer(alloc: Global, text: &Marked) -> Result<String, CaseFault> {
    match text.places.as_slice() {
        [] => Ok(String::from_str(alloc, "accepted")?),
        [place] => Ok(refused_at(alloc, place.rule.as_str(), place.at, &text.bytes)?),
        _ => Err(malformed(alloc, "a text has two places of refusals", "")),
    }
}

/// The program of a text that has to be accepted.
pub fn accepted(alloc: Global, text: &[u8]) -> Result<Program, CaseFault>
    ensures fit { IfOk result (λ p. IsFitToRun (program_view p)) }
{
    match accept_text(alloc, text) {
        Ok(program) => Ok(program),
        Err(Fault::Refused(refusal)) => {
            let refusal = refused_at(alloc, refusal.rule.name(), refusal.at, text)?;
            Err(malformed(alloc, "a program is refused: ", refusal.as_str()))
        }
        Err(Fault::Memory) => Err(CaseFault::Memory),
    }
}
