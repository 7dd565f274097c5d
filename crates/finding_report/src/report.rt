// A report as text.
ghost use Rattle.std.specs.Prelude.{◌≡◌, codes, IfOk, string_bytes};
ghost use Rattle.serde_json.specs.Data.{object, member, no_members};
ghost use Rattle.serde_json.specs.View.{view};
ghost use Rattle.serde_json.specs.Written.{compact_text};
ghost use Rattle.queries.specs.Sets.{members};
ghost use Rattle.finding_report.specs.Reports.{report_with};
ghost use Rattle.finding_report.specs.Views.{comparison_in};

use crate::compared::Compared;
use crate::notes::Notes;
use crate::parts::{break_value, kept_value, scans_value};
use crate::verdict::verdict_text;
use finding_lines::Conclusion;
use serde_json::{Value, json};
use std::alloc::{AllocError, Global};

// An object of four members.
fn report_object(
    alloc: Global,
    first: Value,
    kept: Value,
    scans: Value,
    verdict: Value,
) -> Result<Value, AllocError>
    ensures { IfOk result (λ v. view v ≡ object (member (codes "break") (view first) (member (codes "kept") (view kept) (member (codes "scans") (view scans) (member (codes "verdict") (view verdict) no_members))))) }
{
    json!(in alloc; {"break": first, "kept": kept, "scans": scans, "verdict": verdict})
}

// A report.
fn report_value(
    alloc: Global,
    compared: &Compared<'_>,
    notes: &Notes,
    verdict: Conclusion,
) -> Result<Value, AllocError>
    ensures { IfOk result (λ v. view v ≡ report_with (comparison_in compared.now) (members notes.now.set) notes.now.pair notes.now.scans.items verdict) }
{
    let first = break_value(alloc, compared, &notes.pair)?;
    let kept = kept_value(alloc, compared, &notes.set, verdict)?;
    let scans = scans_value(alloc, compared, notes.scans.as_slice())?;
    let verdict = Value::String(verdict_text(alloc, verdict)?);
    report_object(alloc, first, kept, scans, verdict)
}

/// The text of a report: one JSON object without a blank.
pub fn report_text(
    alloc: Global,
    compared: &Compared<'_>,
    notes: &Notes,
    verdict: Conclusion,
) -> Result<String, AllocError>
    ensures { IfOk result (λ text. string_bytes text ≡ compact_text (report_with (comparison_in compared.now) (members notes.now.set) notes.now.pair notes.now.scans.items verdict)) }
{
    report_value(alloc, compared, notes, verdict)?.to_string(alloc)
}
