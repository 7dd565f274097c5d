// The field of the whole numbers modulo the prime 2^31 - 1. A small fraction is told by its residue.
use plc_types::Value;

// The prime.
const PRIME: u64 = 2_147_483_647;

// The prime, as a signed number.
const SIGNED_PRIME: Value = 2_147_483_647;

/// The residue of a number.
pub fn residue(value: Value) -> u64 {
    value.wrapping_rem_euclid(SIGNED_PRIME) as u64
}

/// The whole number nearest to 0 that has this residue.
pub fn nearest(residue: u64) -> Value {
    let value = (residue % PRIME) as Value;
    if value > SIGNED_PRIME / 2 {
        value.wrapping_sub(SIGNED_PRIME)
    } else {
        value
    }
}

pub fn product(one: u64, other: u64) -> u64 {
    (one % PRIME).wrapping_mul(other % PRIME) % PRIME
}

pub fn difference(one: u64, other: u64) -> u64 {
    (one % PRIME)
        .wrapping_add(PRIME)
        .wrapping_sub(other % PRIME)
        % PRIME
}

/// The residue that gives 1 with this one, which is not 0: its power to the prime less 2.
pub fn inverse(residue: u64) -> u64 {
    let mut power = residue % PRIME;
    let mut result = 1u64;
    let mut left = PRIME - 2;
    for _ in 0..31u32 {
        if left % 2 == 1 {
            result = product(result, power);
        }
        power = product(power, power);
        left /= 2;
    }
    result
}
