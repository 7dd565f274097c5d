ghost use Rattle.std.specs.Prelude.{◌≡◌, ℕ, ◌<◌, Bool, ◌||◌, List, length, ℤ, nat_eq, int_lt};
ghost use Rattle.num_core.specs.Wrapping.{wrap};
ghost use Rattle.clause_core.specs.declared.literal.Lit.{Lit};
ghost use Rattle.clause_core.specs.Satisfaction.{literal_true};
ghost use Rattle.gates.specs.Models.{IsModel};
ghost use Rattle.gates.specs.Netlists.{Netlist};
ghost use Rattle.word_circuits.specs.declared.comparisons.Comparison.{Comparison};
ghost use Rattle.word_circuits.specs.Comparisons.{comparison_of, is_zero_of, outside_of};
ghost use Rattle.word_laws.specs.Numbers.{value, number};
ghost use Rattle.word_laws.specs.Results.{compared};

/// A comparison of words compares their values.
pub fn law_compare()
    ensures { (k : Comparison) (s : Bool) (v : ℕ → Bool) (a b : List Lit) (n : Netlist) → 0 < length a → length a ≡ length b
        → IsModel v (comparison_of k s a b n).net
        → literal_true v (comparison_of k s a b n).lit ≡ compared k (value s v a) (value s v b) }
{}

/// A word is tested for being zero.
pub fn law_is_zero()
    ensures { (v : ℕ → Bool) (a : List Lit) (n : Netlist) → IsModel v (is_zero_of a n).net
        → literal_true v (is_zero_of a n).lit ≡ nat_eq (number v a) 0 }
{}

/// A word is tested for lying outside of two constants of its type.
pub fn law_outside()
    ensures { (s : Bool) (v : ℕ → Bool) (a : List Lit) (low high : ℤ) (n : Netlist) → 0 < length a
        → IsModel v (outside_of s a low high n).net
        → literal_true v (outside_of s a low high n).lit
        ≡ (int_lt (value s v a) (wrap (length a) s low) || int_lt (wrap (length a) s high) (value s v a)) }
{}
