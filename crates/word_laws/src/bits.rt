ghost use Rattle.std.specs.Prelude.{◌≡◌, ℕ, ◌+◌, ◌-◌, ◌*◌, ◌/◌, ◌%◌, ◌^◌, ◌<◌, Bool, true, not, List, length, ℤ, pos, neg_ℤ, ◌-ℤ◌, nat_eq};
ghost use Rattle.num_core.specs.Wrapping.{wrap};
ghost use Rattle.clause_core.specs.declared.literal.Lit.{Lit};
ghost use Rattle.clause_core.specs.Satisfaction.{literal_true};
ghost use Rattle.gates.specs.Models.{IsModel};
ghost use Rattle.gates.specs.Netlists.{Netlist};
ghost use Rattle.word_circuits.specs.declared.bits.BitOperator.{BitOperator};
ghost use Rattle.word_circuits.specs.Words.{bitwise_of, constant_of, not_word};
ghost use Rattle.word_circuits.specs.Shifts.{shl_of, shr_of, rol_of, ror_of};
ghost use Rattle.word_circuits.specs.Conversions.{resized, any_of};
ghost use Rattle.word_laws.specs.Numbers.{value, number};
ghost use Rattle.word_laws.specs.Results.{combined, rotated};

/// A constant's word is the constant, wrapped.
pub fn law_constant()
    ensures { (s : Bool) (v : ℕ → Bool) (width : ℕ) (x : ℤ) → 0 < width → v 1 ≡ true
        → value s v (constant_of width x) ≡ wrap width s x }
{}

/// NOT turns each bit, so that -x - 1 stands for x.
pub fn law_not()
    ensures { (s : Bool) (v : ℕ → Bool) (a : List Lit) → 0 < length a
        → value s v (not_word a) ≡ wrap (length a) s (neg_ℤ (value s v a) -ℤ pos 1) }
{}

/// AND, OR and XOR work bit by bit.
pub fn law_bitwise()
    ensures { (o : BitOperator) (v : ℕ → Bool) (a b : List Lit) (n : Netlist) → length a ≡ length b
        → IsModel v (bitwise_of o a b n).net
        → number v (bitwise_of o a b n).word ≡ combined o (number v a) (number v b) }
{}

/// A conversion wraps a value to the width and sign of its target.
pub fn law_resize()
    ensures { (from to : Bool) (v : ℕ → Bool) (a : List Lit) (width : ℕ) → 0 < width → 0 < length a → v 1 ≡ true
        → value to v (resized from width a) ≡ wrap width to (value from v a) }
{}

/// To BOOL: whether the number is not zero.
pub fn law_any()
    ensures { (v : ℕ → Bool) (a : List Lit) (n : Netlist) → IsModel v (any_of a n).net
        → literal_true v (any_of a n).lit ≡ not (nat_eq (number v a) 0) }
{}

/// Shifts multiply and divide by powers of two.
pub fn law_shifts()
    ensures left { (v : ℕ → Bool) (a : List Lit) (k : ℕ) → v 1 ≡ true
        → number v (shl_of k a) ≡ number v a * 2 ^ k % 2 ^ length a }
    ensures right { (v : ℕ → Bool) (a : List Lit) (k : ℕ) → v 1 ≡ true
        → number v (shr_of k a) ≡ number v a / 2 ^ k }
{}

/// Rotations take in at one end what leaves at the other.
pub fn law_rotations()
    ensures left { (v : ℕ → Bool) (a : List Lit) (k : ℕ) → 0 < length a
        → number v (rol_of k a) ≡ rotated (length a) (k % length a) (number v a) % 2 ^ length a }
    ensures right { (v : ℕ → Bool) (a : List Lit) (k : ℕ) → 0 < length a
        → number v (ror_of k a) ≡ rotated (length a) (length a - k % length a) (number v a) % 2 ^ length a }
{}
