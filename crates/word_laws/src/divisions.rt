ghost use Rattle.std.specs.Prelude.{◌≡◌, ℕ, ◌<◌, Bool, List, length};
ghost use Rattle.num_core.specs.Wrapping.{wrap};
ghost use Rattle.clause_core.specs.declared.literal.Lit.{Lit};
ghost use Rattle.gates.specs.Models.{IsModel};
ghost use Rattle.gates.specs.Netlists.{Netlist};
ghost use Rattle.word_circuits.specs.declared.divide.Part.{Part};
ghost use Rattle.word_circuits.specs.Divisions.{division_of};
ghost use Rattle.word_laws.specs.Numbers.{value};
ghost use Rattle.word_laws.specs.Results.{divided};

/// A quotient of words is that of their values, truncated and wrapped; a remainder has the dividend's sign.
/// Both are zero where the divisor is.
pub fn law_division()
    ensures { (p : Part) (s : Bool) (v : ℕ → Bool) (a b : List Lit) (n : Netlist) → 0 < length a → length a ≡ length b
        → IsModel v (division_of p s a b n).net
        → value s v (division_of p s a b n).word ≡ wrap (length a) s (divided p (value s v a) (value s v b)) }
{}
