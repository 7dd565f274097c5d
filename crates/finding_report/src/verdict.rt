// A verdict as text.
ghost use Rattle.std.specs.Prelude.{◌≡◌, IfOk, string_bytes};
ghost use Rattle.finding_report.specs.Reports.{verdict_text};

use finding_lines::{Asked, Conclusion};
use plc_types::Value;
use std::alloc::{AllocError, Global};

// `SPENT query q conflicts n`.
fn spent_text(alloc: Global, asked: Asked, conflicts: Value) -> Result<String, AllocError>
    ensures { IfOk result (λ text. string_bytes text ≡ verdict_text (Conclusion.Spent asked conflicts)) }
{
    match asked {
        Asked::First => format!(in alloc; "SPENT query FIRST conflicts {conflicts}"),
        Asked::Step => format!(in alloc; "SPENT query STEP conflicts {conflicts}"),
        Asked::Goal => format!(in alloc; "SPENT query GOAL conflicts {conflicts}"),
        Asked::Deep(scans) => format!(in alloc; "SPENT query DEEP {scans} conflicts {conflicts}"),
        Asked::Walk(rows) => format!(in alloc; "SPENT query WALK {rows} conflicts {conflicts}"),
    }
}

/// A verdict as its END line has it.
pub fn verdict_text(alloc: Global, verdict: Conclusion) -> Result<String, AllocError>
    ensures { IfOk result (λ text. string_bytes text ≡ verdict_text verdict) }
{
    match verdict {
        Conclusion::Vacuous => String::from_str(alloc, "VACUOUS"),
        Conclusion::Related(kept, candidates) => {
            format!(in alloc; "RELATED kept {kept} of {candidates}")
        }
        Conclusion::Different(scans) => format!(in alloc; "DIFFERENT scans {scans}"),
        Conclusion::Open(kept, candidates, depth) => {
            format!(in alloc; "OPEN kept {kept} of {candidates} depth {depth}")
        }
        Conclusion::Spent(asked, conflicts) => spent_text(alloc, asked, conflicts),
    }
}
