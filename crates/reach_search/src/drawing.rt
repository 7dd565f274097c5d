// Rows that are guessed. Nothing is owed: each is tried.
use lane_sim::Random;
use pair_trial::range_of_line;
use plc_types::{Range, Value};
use queries::Row;
use scan_model::InputLine;
use std::alloc::{AllocError, Global};

/// How far above the least number of a range one is drawn at most.
const FARTHEST: Value = 0xffff_ffff_ffff_fffe;

// Any number of a range, but for the last of 2^64.
fn inside(random: &mut Random, range: Range) -> Value {
    let span = range.high.wrapping_sub(range.low).clamp(0, FARTHEST);
    let offset = random.below(span as u64 + 1);
    range.low.wrapping_add(Value::from(offset))
}

// A number that is drawn: in every second turn mostly the last one, else an edge of the range or any.
fn draw_number(random: &mut Random, turn: u32, range: Range, last: Value) -> Value {
    let is_kept = random.below(4) > 0;
    if is_kept && turn % 2 == 0 {
        return last;
    }
    match random.below(4) {
        0 => range.low,
        1 => range.high,
        _ => inside(random, range),
    }
}

// The number of an input: in the first turns that of the last row, that of the first, 0 and the edges of the range; then any.
fn number(random: &mut Random, turn: u32, range: Range, first: Value, last: Value) -> Value {
    let number = match turn {
        0 => last,
        1 => first,
        2 => 0,
        3 => range.low,
        4 => range.high,
        _ => draw_number(random, turn, range, last),
    };
    number.max(range.low).min(range.high)
}

// The number at a place of a row, or 0 where there is none.
fn number_at(row: &Row, place: usize) -> Value {
    row.as_slice().get(place).copied().unwrap_or(0)
}

/// The row that is guessed in a turn.
pub fn draw(
    alloc: Global,
    random: &mut Random,
    turn: u32,
    lines: &[InputLine],
    first: &Row,
    last: &Row,
) -> Result<Row, AllocError> {
    let mut row = Row::new(alloc);
    for (place, line) in lines.iter().enumerate() {
        let range = range_of_line(*line);
        let first_number = number_at(first, place);
        let last_number = number_at(last, place);
        row.push(number(random, turn, range, first_number, last_number))?;
    }
    Ok(row)
}
