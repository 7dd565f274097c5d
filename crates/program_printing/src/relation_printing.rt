// Relations as texts.
use crate::expr_printing::print_expr;
use plc_types::Range;
use program_tree::{Cell, Program, TypedExpr};
use relation_lines::{Condition, Content, Line, Setting};
use scan_model::{Candidate, InputLine, Relation, Side};
use std::alloc::{AllocError, Global};

/// The names of OLD's cells and then of NEW's, each behind its side.
pub fn cell_names(alloc: Global, old: &Program, new: &Program) -> Result<Vec<String>, AllocError> {
    let mut names = Vec::new(alloc);
    for (side, program) in [("OLD", old), ("NEW", new)] {
        for cell in &program.cells {
            let path = cell.path.as_str();
            names.push(format!(in alloc; "{side}.{path}")?)?;
        }
    }
    Ok(names)
}

/// The names of the candidates.
pub fn print_candidates(alloc: Global, candidates: &[Candidate]) -> Result<String, AllocError> {
    let mut names = String::new(alloc);
    for candidate in candidates {
        add_name(candidate, &mut names)?;
    }
    Ok(names)
}

/// Adds the name of a candidate to a list, behind a comma where it is not the first.
pub fn add_name(candidate: &Candidate, names: &mut String) -> Result<(), AllocError> {
    if !names.is_empty() {
        names.push_str(", ")?;
    }
    names.push_str(candidate.name.as_str())
}

/// The candidates, a line for each.
pub fn print_clauses(
    alloc: Global,
    candidates: &[Candidate],
    names: &[String],
) -> Result<String, AllocError> {
    let mut text = String::new(alloc);
    for candidate in candidates {
        text.push_str(candidate.name.as_str())?;
        text.push_str(": ")?;
        print_expr(&candidate.clause, names, alloc, &mut text)?;
        text.push_str("\n")?;
    }
    Ok(text)
}

/// What a relation says, a line for each thing.
pub fn print_parts(
    alloc: Global,
    old: &Program,
    new: &Program,
    relation: &Relation,
    names: &[String],
) -> Result<String, AllocError> {
    let (depth, conflicts) = (relation.depth, relation.conflicts);
    let mut text = format!(in alloc; "DEPTH {depth}\nCONFLICTS {conflicts}\n")?;
    for line in &relation.inputs {
        print_input(alloc, &old.cells, &new.cells, *line, &mut text)?;
    }
    for clause in &relation.environment {
        add_clause(alloc, "ENV ", clause, names, &mut text)?;
    }
    text.push_str(if relation.equal_faults {
        "FAULTS EQUAL\n"
    } else {
        "FAULTS FREE\n"
    })?;
    for candidate in relation.relate_clauses() {
        add_clause(alloc, "RELATE ", &candidate.clause, names, &mut text)?;
    }
    for candidate in relation.invariant_clauses() {
        add_clause(alloc, "INVARIANT ", &candidate.clause, names, &mut text)?;
    }
    Ok(text)
}

fn add_clause(
    alloc: Global,
    word: &str,
    clause: &TypedExpr,
    names: &[String],
    text: &mut String,
) -> Result<(), AllocError> {
    text.push_str(word)?;
    print_expr(clause, names, alloc, text)?;
    text.push_str("\n")
}

fn print_input(
    alloc: Global,
    old: &[Cell],
    new: &[Cell],
    line: InputLine,
    text: &mut String,
) -> Result<(), AllocError> {
    text.push_str("INPUT ")?;
    match line {
        InputLine::Both {
            range,
            old: first,
            new: second,
        } => {
            text.push_str(path_of(old, first))?;
            text.push_str(" = ")?;
            text.push_str(path_of(new, second))?;
            add_range(alloc, range, text)
        }
        InputLine::Old { range, place } => {
            text.push_str("OLD ")?;
            text.push_str(path_of(old, place))?;
            add_range(alloc, range, text)
        }
        InputLine::New { range, place } => {
            text.push_str("NEW ")?;
            text.push_str(path_of(new, place))?;
            add_range(alloc, range, text)
        }
    }
}

fn path_of(cells: &[Cell], place: usize) -> &str {
    match cells.get(place) {
        Some(cell) => cell.path.as_str(),
        None => "no cell",
    }
}

fn add_range(alloc: Global, range: Range, text: &mut String) -> Result<(), AllocError> {
    let (low, high) = (range.low, range.high);
    text.push_str(format!(in alloc; " {low}..{high}\n")?.as_str())
}

/// The lines of the text of a relation, with the places of their parts.
pub fn print_lines(alloc: Global, lines: &[Line]) -> Result<String, AllocError> {
    let mut text = String::new(alloc);
    for line in lines {
        let at = line.at;
        text.push_str(format!(in alloc; "{at}: ")?.as_str())?;
        text.push_str(print_content(alloc, &line.content)?.as_str())?;
        text.push_str("\n")?;
    }
    Ok(text)
}

fn print_content(alloc: Global, content: &Content) -> Result<String, AllocError> {
    match content {
        Content::Setting(setting, number, at) => {
            let word = setting_word(*setting);
            format!(in alloc; "{word} {number} at {at}")
        }
        Content::Faults(true, at) => format!(in alloc; "FAULTS EQUAL at {at}"),
        Content::Faults(false, at) => format!(in alloc; "FAULTS FREE at {at}"),
        Content::Paired(old, at, new) => {
            let (first, first_at) = (old.text.as_str(), old.at);
            let (second, second_at) = (new.text.as_str(), new.at);
            format!(in alloc; "INPUT {first} at {first_at} = at {at} {second} at {second_at}")
        }
        Content::Single(side, at, name) => {
            let (text, text_at) = (name.text.as_str(), name.at);
            let side = side_word(*side);
            format!(in alloc; "INPUT {side} at {at} {text} at {text_at}")
        }
        Content::Clause(condition, _) => String::from_str(alloc, condition_word(*condition)),
    }
}

fn setting_word(setting: Setting) -> &'static str {
    match setting {
        Setting::Version => "RELATION",
        Setting::Depth => "DEPTH",
        Setting::Conflicts => "CONFLICTS",
    }
}

fn side_word(side: Side) -> &'static str {
    match side {
        Side::Old => "OLD",
        Side::New => "NEW",
    }
}

fn condition_word(condition: Condition) -> &'static str {
    match condition {
        Condition::Environment => "ENV",
        Condition::Relate => "RELATE",
        Condition::Invariant => "INVARIANT",
    }
}
