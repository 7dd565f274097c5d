// What is told beside the text, or in its place.
use command_answers::Source;
use command_files::AcceptError;
use plc_types::Value;
use std::alloc::{AllocError, Global};
use suggestion::Suggestion;

// Adds the rows of a run as a trace.
fn add_rows(alloc: Global, rows: &[Vec<Value>], text: &mut String) -> Result<(), AllocError> {
    text.push_str("[")?;
    for (place, row) in rows.iter().enumerate() {
        text.push_str(if place == 0 { "[" } else { ",[" })?;
        for (column, number) in row.iter().enumerate() {
            let shown = format!(in alloc; "{number}")?;
            text.push_str(if column == 0 { "" } else { "," })?;
            text.push_str(shown.as_str())?;
        }
        text.push_str("]")?;
    }
    text.push_str("]")
}

// That no line helps, and the trace that shows it.
fn note_on_scan(alloc: Global, suggestion: &Suggestion, scan: usize) -> Result<String, AllocError> {
    let mut text = format!(in alloc;
        "after scan {scan} of a run the pair is not related, so no INVARIANT line helps; replay this trace: "
    )?;
    if let Some(run) = suggestion.runs.last() {
        add_rows(alloc, run.as_slice(), &mut text)?;
    }
    Ok(text)
}

// How many lines were added, and how many stand in comments.
fn note_on_lines(alloc: Global, suggestion: &Suggestion) -> Result<String, AllocError> {
    let pairs = suggestion.pairs;
    let lines = suggestion.lines.iter().filter(|line| line.is_kept).count();
    let others = suggestion.lines.len().saturating_sub(lines);
    if others == 0 {
        format!(in alloc; "{lines} lines, each of which held on {pairs} pairs")
    } else {
        format!(in alloc;
            "{lines} lines that verify keeps, each of which held on {pairs} pairs; in comments {others} more that held there"
        )
    }
}

// How many lines were added and on how many pairs they held; or after which scan a pair was not related, with the rows that lead there.
fn note_of(alloc: Global, suggestion: &Suggestion) -> Result<String, AllocError> {
    match suggestion.unrelated {
        Some(scan) => note_on_scan(alloc, suggestion, scan),
        None => note_on_lines(alloc, suggestion),
    }
}

/// How the program ends, and the line that says so: beside a text a note on it.
#[derive(Drop)]
pub struct Ending {
    pub status: u8,
    pub line: String,
}

/// How the program ends with a text.
pub fn ending_of(alloc: Global, suggestion: &Suggestion) -> Result<Ending, AllocError> {
    Ok(Ending {
        status: if suggestion.unrelated.is_some() { 1 } else { 0 },
        line: note_of(alloc, suggestion)?,
    })
}

fn source_word(source: Source) -> &'static str {
    match source {
        Source::Old => "OLD",
        Source::New => "NEW",
        Source::Relation => "REL",
        Source::Trace => "TRACE",
        Source::Finding => "FINDING",
    }
}

/// How it ends without one.
pub fn ending_without(alloc: Global, error: &AcceptError) -> Result<Ending, AllocError> {
    match error {
        AcceptError::Refused(source, refusal) => {
            let (word, rule, at) = (source_word(*source), refusal.rule.name(), refusal.at);
            Ok(Ending {
                status: 6,
                line: format!(in alloc; "REFUSED {word} {rule} at {at}")?,
            })
        }
        AcceptError::Memory => Ok(Ending {
            status: 9,
            line: String::from_str(alloc, "MEMORY")?,
        }),
    }
}
