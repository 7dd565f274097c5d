// Rows of one width in one list of numbers.
ghost use Rattle.std.specs.Prelude.{◌≡◌, ◌+◌, ◌<◌, ◌≤◌, length, take, drop, slice_get, Some};

use plc_types::Value;
use std::marker::Model;

/// The rows of a trace. They are of one width, and stand one behind the other.
#[derive(Drop)]
pub struct TraceRows {
    numbers: Vec<Value>,
    width: usize,
    count: usize,
}

impl Model for TraceRows {
    ghost use Rattle.std.specs.Prelude.{◌≡◌, ◌*◌, List, length, ℤ};
    ghost use Rattle.trace_rows.specs.Rows.{rows_of};

    ghost Value = { List (List ℤ) };

    ghost view = { λ r. rows_of r.width r.count r.numbers.items };

    ghost invariant = { λ r. length r.numbers.items ≡ r.count * r.width };
}

// So many numbers from a place on.
fn part(numbers: &[Value], start: usize, len: usize) -> &[Value]
    requires { start + len ≤ length numbers.now }
    ensures { result.now ≡ take len (drop start numbers.now) }
{
    &numbers[start..start + len]
}

impl TraceRows {
    ghost use Rattle.std.specs.Prelude.{◌*◌};
    ghost use Rattle.trace_rows.specs.Rows.{rows_of};

    /// So many rows, of which the numbers are given.
    pub(crate) fn new(width: usize, count: usize, numbers: Vec<Value>) -> TraceRows
        requires { length numbers.items ≡ count * width }
        ensures { result ≡ rows_of width count numbers.items }
    {
        TraceRows {
            numbers,
            width,
            count,
        }
    }

    /// How many rows there are.
    pub fn len(&self) -> usize
        ensures { result ≡ length self.now }
    {
        self.count
    }

    /// The row at a place.
    pub fn row(&self, place: usize) -> &[Value]
        requires { place < length self.now }
        ensures { slice_get self.now place ≡ Some result.now }
    {
        part(&self.numbers, place * self.width, self.width)
    }
}
