// Lines that are left out. Of what is left nothing is asked, but each call leaves fewer lines, where there are any.
use line_trials::InvariantLine;

// The bytes of a line besides its clause and its note.
const AROUND: usize = 19;

// The number of the line in which a byte stands; the first line begins at `start`.
fn line_at(lines: &[InvariantLine], start: usize, at: usize) -> Option<usize> {
    if at < start {
        return None;
    }
    let mut end = start;
    for (place, line) in lines.iter().enumerate() {
        end = end
            .saturating_add(AROUND)
            .saturating_add(line.clause.len())
            .saturating_add(line.note.len());
        if at < end {
            return Some(place);
        }
    }
    None
}

fn remove_at(lines: &mut Vec<InvariantLine>, place: usize) {
    if place < lines.len() {
        let _line = lines.remove(place);
    }
}

/// Leaves out the line that was refused; where the place is in none, the last half of the lines.
pub fn drop_refused(lines: &mut Vec<InvariantLine>, start: usize, at: usize) {
    match line_at(lines.as_slice(), start, at) {
        Some(place) => remove_at(lines, place),
        None => {
            let half = lines.len() / 2;
            lines.truncate(half);
        }
    }
}

// Whether a line stands as a line, by its number.
fn is_kept(lines: &[InvariantLine], place: usize) -> bool {
    match lines.get(place) {
        Some(line) => line.is_kept,
        None => false,
    }
}

/// Leaves out the lines that are marked, a mark for each of those that stand in no comment; where none is, all.
pub fn drop_failed(lines: &mut Vec<InvariantLine>, marks: &[bool]) {
    let before = lines.len();
    let mut number = lines.iter().filter(|line| line.is_kept).count();
    for place in (0..before).rev() {
        if is_kept(lines.as_slice(), place) {
            number = number.wrapping_sub(1);
            if number < marks.len() && marks[number] {
                remove_at(lines, place);
            }
        }
    }
    if lines.len() == before {
        lines.clear();
    }
}
