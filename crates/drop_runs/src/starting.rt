// The start of both programs.
use crate::free::{lane_bits, put_first, put_numbers};
use lane_sim::{all_lanes, no_lane};
use pair_circuits::{PairParts, Product};
use plc_types::Value;
use std::alloc::{AllocError, Global};
use std::simd::u64x4;

/// Puts the cells of all runs at the start.
pub(crate) fn put_start(free: &mut [u64x4], parts: &PairParts, product: &Product) {
    let pair = &product.pair;
    put_first(free, pair.old.as_slice(), parts.old.as_slice());
    put_first(free, pair.new.as_slice(), parts.new.as_slice());
}

/// The free bits of the start with a row, the first being that of variable 2.
pub fn start_bits(
    alloc: Global,
    parts: &PairParts,
    product: &Product,
    row: &[Value],
) -> Result<Vec<bool>, AllocError> {
    let count = (product.circuit.first() as usize).saturating_sub(2);
    let mut free = vec![in alloc; no_lane(); count]?;
    put_start(free.as_mut_slice(), parts, product);
    let inputs = product.inputs.as_slice();
    put_numbers(free.as_mut_slice(), inputs, row, all_lanes());
    lane_bits(alloc, free.as_slice(), 0)
}
