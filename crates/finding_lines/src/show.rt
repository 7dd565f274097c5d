// Lines as text.
ghost use Rattle.std.specs.Prelude.{◌≡◌, ◌++◌, OnOk, string_bytes};
ghost use Rattle.finding_lines.specs.Spelling.{spaced, spaced_all, asked, concluded, ended, derived, spelled};

use crate::line::{Asked, Conclusion, Line, Version};
use itoa::Buffer;
use plc_types::Value;
use std::alloc::AllocError;

fn show_number(text: &mut String, number: Value) -> Result<(), AllocError>
    ensures { OnOk result (string_bytes text.new ≡ string_bytes text.old ++ spaced number) }
{
    let mut digits = Buffer::new();
    text.push_str(" ")?;
    text.push_str(digits.format(number))?;
    Ok(())
}

fn show_numbers(text: &mut String, numbers: &[Value]) -> Result<(), AllocError>
    ensures { OnOk result (string_bytes text.new ≡ string_bytes text.old ++ spaced_all numbers.now) }
{
    for number in numbers {
        show_number(text, *number)?;
    }
    Ok(())
}

fn show_row(text: &mut String, keyword: &str, numbers: &[Value]) -> Result<(), AllocError>
    ensures { OnOk result (string_bytes text.new ≡ string_bytes text.old ++ (keyword.now ++ spaced_all numbers.now)) }
{
    text.push_str(keyword)?;
    show_numbers(text, numbers)
}

fn show_labelled(text: &mut String, label: &str, number: Value) -> Result<(), AllocError>
    ensures { OnOk result (string_bytes text.new ≡ string_bytes text.old ++ (label.now ++ spaced number)) }
{
    text.push_str(label)?;
    show_number(text, number)
}

fn show_two(
    text: &mut String,
    first: &str,
    one: Value,
    second: &str,
    two: Value,
) -> Result<(), AllocError>
    ensures { OnOk result (string_bytes text.new ≡ string_bytes text.old ++ (first.now ++ (spaced one ++ (second.now ++ spaced two)))) }
{
    show_labelled(text, first, one)?;
    show_labelled(text, second, two)
}

fn show_three(
    text: &mut String,
    first: &str,
    one: Value,
    second: &str,
    two: Value,
    third: &str,
    three: Value,
) -> Result<(), AllocError>
    ensures { OnOk result (string_bytes text.new ≡ string_bytes text.old ++ (first.now ++ (spaced one ++ (second.now ++ (spaced two ++ (third.now ++ spaced three)))))) }
{
    show_labelled(text, first, one)?;
    show_two(text, second, two, third, three)
}

fn show_asked(text: &mut String, keyword: &str, query: Asked) -> Result<(), AllocError>
    ensures { OnOk result (string_bytes text.new ≡ string_bytes text.old ++ (keyword.now ++ asked query)) }
{
    text.push_str(keyword)?;
    match query {
        Asked::First => text.push_str(" FIRST"),
        Asked::Step => text.push_str(" STEP"),
        Asked::Goal => text.push_str(" GOAL"),
        Asked::Deep(depth) => show_labelled(text, " DEEP", depth),
        Asked::Walk(rows) => show_labelled(text, " WALK", rows),
    }
}

fn show_spent(
    text: &mut String,
    keyword: &str,
    query: Asked,
    label: &str,
    number: Value,
) -> Result<(), AllocError>
    ensures { OnOk result (string_bytes text.new ≡ string_bytes text.old ++ (keyword.now ++ (asked query ++ (label.now ++ spaced number)))) }
{
    show_asked(text, keyword, query)?;
    show_labelled(text, label, number)
}

/// Adds a verdict, with the space before it.
pub fn show_conclusion(text: &mut String, conclusion: Conclusion) -> Result<(), AllocError>
    ensures { OnOk result (string_bytes text.new ≡ string_bytes text.old ++ concluded conclusion) }
{
    match conclusion {
        Conclusion::Vacuous => text.push_str(" VACUOUS"),
        Conclusion::Related(kept, candidates) => {
            show_two(text, " RELATED kept", kept, " of", candidates)
        }
        Conclusion::Different(scans) => show_labelled(text, " DIFFERENT scans", scans),
        Conclusion::Open(kept, candidates, depth) => {
            show_three(text, " OPEN kept", kept, " of", candidates, " depth", depth)
        }
        Conclusion::Spent(query, number) => {
            show_spent(text, " SPENT query", query, " conflicts", number)
        }
    }
}

fn show_deleted(text: &mut String, ids: &[Value]) -> Result<(), AllocError>
    ensures { OnOk result (string_bytes text.new ≡ string_bytes text.old ++ ended ids.now) }
{
    show_numbers(text, ids)?;
    text.push_str(" 0")
}

fn show_derived(text: &mut String, literals: &[Value], hints: &[Value]) -> Result<(), AllocError>
    ensures { OnOk result (string_bytes text.new ≡ string_bytes text.old ++ derived literals.now hints.now) }
{
    show_numbers(text, literals)?;
    text.push_str(" 0")?;
    show_numbers(text, hints)?;
    text.push_str(" 0")
}

/// Adds the text of a line, without a line feed.
pub fn show_line(text: &mut String, line: &Line) -> Result<(), AllocError>
    ensures { OnOk result (string_bytes text.new ≡ string_bytes text.old ++ spelled line.now) }
{
    match line {
        Line::Header(Version::One) => text.push_str("REGVER FINDING 1"),
        Line::Header(Version::Two) => text.push_str("REGVER FINDING 2"),
        Line::Seen(inputs) => show_row(text, "SEEN", inputs.as_slice()),
        Line::Walk(inputs) => show_row(text, "WALK", inputs.as_slice()),
        Line::Dropping(numbers) => show_row(text, "DROP", numbers.as_slice()),
        Line::Pair(numbers) => show_row(text, "PAIR", numbers.as_slice()),
        Line::Scan(inputs) => show_row(text, "SCAN", inputs.as_slice()),
        Line::Log(query) => show_asked(text, "LOG", *query),
        Line::Query(query) => show_asked(text, "QUERY", *query),
        Line::Derived(literals, hints) => {
            text.push_str("D")?;
            show_derived(text, literals.as_slice(), hints.as_slice())
        }
        Line::Deleted(ids) => {
            text.push_str("X")?;
            show_deleted(text, ids.as_slice())
        }
        Line::End(conclusion) => {
            text.push_str("END")?;
            show_conclusion(text, *conclusion)
        }
    }
}
