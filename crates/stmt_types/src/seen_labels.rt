// The labels of a CASE that were seen.
ghost use Rattle.std.specs.Prelude.{◌≡◌, List};
ghost use Rattle.typing.specs.Labels.{overlaps};
ghost use Rattle.typing.specs.Seen.{Keeps};
ghost use Rattle.stmt_types.specs.SeenLabels.{is_above, greater};

use plc_types::{Range, Value};
use std::alloc::{AllocError, Global};
use std::collections::BTreeMap;

// The values of labels, from the low of each to its high.
type Highs = BTreeMap<Value, Value>;

/// The values of the labels that were seen, and the greatest of them.
#[derive(Drop)]
pub(crate) struct Seen {
    highs: Highs,
    greatest: Option<Value>,
}

fn is_above(greatest: Option<Value>, value: Value) -> bool
    ensures { result ≡ is_above greatest value }
{
    match greatest {
        None => true,
        Some(greatest) => greatest < value,
    }
}

fn greater(greatest: Option<Value>, value: Value) -> Value
    ensures { result ≡ greater greatest value }
{
    match greatest {
        None => value,
        Some(greatest) if greatest < value => value,
        Some(greatest) => greatest,
    }
}

// Whether a range has a value of those that are kept: of these the one with the greatest low that is not above the
// range's high decides, since no two of them meet.
fn overlaps_kept(highs: &Highs, range: Range) -> bool
    ensures { (list : List Range) → Keeps highs.now list → result ≡ overlaps list range }
{
    match highs.range(..=range.high).next_back() {
        None => false,
        Some((_, high)) => range.low <= *high,
    }
}

impl Seen {
    ghost use Rattle.std.specs.Prelude.{◌≡◌, List, [], Some, OnOk};
    ghost use Rattle.std.specs.Ordering.{int_cmp};
    ghost use Rattle.std.specs.BTreeMap.{Updates};
    ghost use Rattle.typing.specs.Labels.{overlaps};
    ghost use Rattle.stmt_types.specs.SeenLabels.{greater, Sees};

    /// No labels.
    pub(crate) fn new(alloc: Global) -> Seen
        ensures { Sees result [] }
    {
        Seen {
            highs: BTreeMap::new(alloc),
            greatest: None,
        }
    }

    /// Whether a range has a value of a label that was seen. One that is above them all has none.
    pub(crate) fn overlaps(&self, range: Range) -> bool
        ensures { (list : List Range) → Sees self.now list → result ≡ overlaps list range }
    {
        if is_above(self.greatest, range.low) {
            return false;
        }
        overlaps_kept(&self.highs, range)
    }

    /// Sees the values of one more label.
    pub(crate) fn insert(&mut self, range: Range) -> Result<(), AllocError>
        ensures highs { OnOk result (Updates int_cmp self.old.highs self.new.highs range.low (Some range.high)) }
        ensures greatest { OnOk result (self.new.greatest ≡ Some (greater self.old.greatest range.high)) }
    {
        self.highs.insert(range.low, range.high)?;
        self.greatest = Some(greater(self.greatest, range.high));
        Ok(())
    }
}
