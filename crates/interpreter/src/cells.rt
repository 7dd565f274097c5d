// Cells and their ranges.
ghost use Rattle.std.specs.Prelude.{◌≡◌, ◌||◌, ◌++◌, ◌<◌, pos, length, slice_set, slice_index_or};
ghost use Rattle.plc_types.specs.Types.{in_range};
ghost use Rattle.meaning.specs.Effects.{range_at, with_fault, stored};

use plc_types::{Range, Value};

/// The value of a cell of two states, one behind the other; 0 where there is none.
#[inline(always)]
pub fn read_of_two(first: &[Value], second: &[Value], place: u128) -> Value
    ensures { result ≡ slice_index_or (first.now ++ second.now) place (pos 0) }
{
    let behind = first.len() as u128;
    if place < behind {
        first[place as usize]
    } else {
        read(second, place - behind)
    }
}

/// The value of a cell; 0 where there is none.
#[inline(always)]
pub fn read(state: &[Value], place: u128) -> Value
    ensures { result ≡ slice_index_or state.now place (pos 0) }
{
    if place < state.len() as u128 {
        state[place as usize]
    } else {
        0
    }
}

/// Puts a value into a cell, where there is one.
#[inline(always)]
pub fn put(state: &mut [Value], place: u128, value: Value)
    ensures { state.new ≡ slice_set state.old place value }
{
    if place < state.len() as u128 {
        state[place as usize] = value;
    }
}

/// Adds a fault that is met to FAULT.
#[inline(always)]
pub fn add_fault(fault: bool, state: &mut [Value])
    ensures { state.new ≡ with_fault fault state.old }
{
    if fault {
        put(state, 0, 1);
    }
}

/// Assigns a value where it is in the target's range; else that is a fault.
#[inline(always)]
pub fn store(ranges: &[Range], target: u128, value: Value, state: &mut [Value])
    ensures { state.new ≡ stored ranges.now target value state.old }
{
    if is_in_range(value, range_at(ranges, target)) {
        put(state, target, value);
    } else {
        put(state, 0, 1);
    }
}

/// The range of a cell; where there is no cell no value is in it.
#[inline(always)]
pub fn range_at(ranges: &[Range], place: u128) -> Range
    ensures { result ≡ range_at ranges.now place }
{
    if place < ranges.len() as u128 {
        ranges[place as usize]
    } else {
        Range { low: 1, high: 0 }
    }
}

/// Whether a value lies in a range.
#[inline(always)]
pub fn is_in_range(value: Value, range: Range) -> bool
    ensures { result ≡ in_range value range }
{
    range.low <= value && value <= range.high
}

/// Whether one of two holds.
pub fn either(one: bool, other: bool) -> bool
    ensures { result ≡ (one || other) }
{
    one || other
}
