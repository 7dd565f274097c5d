// Rows of inputs.
use crate::random::Random;
use plc_types::{Range, Value};
use scan_model::InputLine;
use std::alloc::{AllocError, Global};

fn range_of(line: InputLine) -> Range {
    match line {
        InputLine::Both { range, .. } => range,
        InputLine::Old { range, .. } => range,
        InputLine::New { range, .. } => range,
    }
}

/// How the numbers of an input come in a run: with which chance in hundredths one is drawn anew in a scan; and the number to which the
/// input goes back where none is, if it does not stay.
#[derive(Clone, Copy)]
pub struct Habit {
    hundredths: u64,
    rest: Option<Value>,
}

/// Of how many scans in a hundred an input that goes back is drawn anew.
const PULSES: u64 = 3;

/// How the inputs come in a run: in every second run all of them stay, and change with one chance; in the others half of them go back to 0
/// or to a number that is drawn now, as a button does or a switch that is seldom moved.
pub fn draw_habits(
    alloc: Global,
    random: &mut Random,
    lines: &[InputLine],
    numbers: &[Value],
    hundredths: u64,
) -> Result<Vec<Habit>, AllocError> {
    let are_alike = random.below(2) == 0;
    let mut habits = Vec::new(alloc);
    for line in lines {
        let range = range_of(*line);
        let drawn = random.value(range, numbers);
        let least = range.low.max(0).min(range.high);
        let rest = if random.below(2) == 0 { least } else { drawn };
        let goes_back = random.below(2) == 0 && !are_alike;
        habits.push(Habit {
            hundredths: if goes_back { PULSES } else { hundredths },
            rest: if goes_back { Some(rest) } else { None },
        })?;
    }
    Ok(habits)
}

/// A row: each number is drawn anew, or is that to which the input goes back, or that of the last row, where there is one.
pub fn draw_row(
    alloc: Global,
    random: &mut Random,
    lines: &[InputLine],
    numbers: &[Value],
    habits: &[Habit],
    last: &[Value],
) -> Result<Vec<Value>, AllocError> {
    let mut row = Vec::new(alloc);
    for (place, line) in lines.iter().enumerate() {
        let drawn = random.value(range_of(*line), numbers);
        let chance = random.below(100);
        let kept = match habits.get(place) {
            Some(habit) if chance >= habit.hundredths => match habit.rest {
                Some(rest) => Some(rest),
                None => last.get(place).copied(),
            },
            _ => None,
        };
        row.push(kept.unwrap_or(drawn))?;
    }
    Ok(row)
}
