ghost use Rattle.std.specs.Prelude.{◌≡◌, ◌<◌, length, IfOk};
ghost use Rattle.word_circuits.specs.Shifts.{shl_of, shr_of, rol_of, ror_of};

use crate::words::{joined, zeros};
use clause_core::Lit;
use std::alloc::{AllocError, Global};

/// SHL: by so many places towards the top; zeros come in below.
pub fn shl(alloc: Global, word: &[Lit], places: usize) -> Result<Vec<Lit>, AllocError>
    ensures { IfOk result (λ w. w.items ≡ shl_of places word.now) }
{
    let gone = places.min(word.len());
    let low = zeros(alloc, gone)?;
    joined(alloc, low.as_slice(), &word[..word.len() - gone])
}

/// SHR: by so many places towards the bottom; zeros come in above.
pub fn shr(alloc: Global, word: &[Lit], places: usize) -> Result<Vec<Lit>, AllocError>
    ensures { IfOk result (λ w. w.items ≡ shr_of places word.now) }
{
    let gone = places.min(word.len());
    let high = zeros(alloc, gone)?;
    joined(alloc, &word[gone..], high.as_slice())
}

/// ROL: by so many places towards the top; what leaves comes in below.
pub fn rol(alloc: Global, word: &[Lit], places: usize) -> Result<Vec<Lit>, AllocError>
    requires { 0 < length word.now }
    ensures { IfOk result (λ w. w.items ≡ rol_of places word.now) }
{
    let low = word.len() - places % word.len();
    joined(alloc, &word[low..], &word[..low])
}

/// ROR: by so many places towards the bottom; what leaves comes in above.
pub fn ror(alloc: Global, word: &[Lit], places: usize) -> Result<Vec<Lit>, AllocError>
    requires { 0 < length word.now }
    ensures { IfOk result (λ w. w.items ≡ ror_of places word.now) }
{
    let gone = places % word.len();
    joined(alloc, &word[gone..], &word[..gone])
}
