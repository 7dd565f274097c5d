// Types and ranges of a frame's cells, and the values of a type.
ghost use Rattle.std.specs.Prelude.{◌≡◌};
ghost use Rattle.plc_types.specs.Types.{range_of};
ghost use Rattle.meaning.specs.Effects.{range_at};
ghost use Rattle.meaning.specs.Frames.{type_at};

use num_core::IntType;
use plc_types::{DataType, Elementary, Range, Value};
use program_tree::CellType;

const NO_TYPE: CellType = CellType {
    kind: DataType::Unknown,
    is_subrange: false,
};

const NO_RANGE: Range = Range { low: 1, high: 0 };

/// The type of a frame's cell.
pub fn type_at(types: &[CellType], place: usize) -> CellType
    ensures { result ≡ type_at types.now place }
{
    types.get(place).copied().unwrap_or(NO_TYPE)
}

/// The range of a cell; where there is no cell no value is in it.
pub fn range_at(ranges: &[Range], place: usize) -> Range
    ensures { result ≡ range_at ranges.now place }
{
    ranges.get(place).copied().unwrap_or(NO_RANGE)
}

/// The values of a type.
pub fn range_of(kind: Elementary) -> Range
    ensures { result ≡ range_of kind }
{
    let numbers = IntType::whole(kind.width(), kind.is_signed());
    Range {
        low: numbers.lo as Value,
        high: numbers.hi as Value,
    }
}
