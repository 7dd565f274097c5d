ghost use Rattle.std.specs.Prelude.{◌≡◌, ℕ, ◌<◌, Bool, List, length, pos, unsigned_abs, if◌then◌else◌};
ghost use Rattle.num_core.specs.Wrapping.{wrap};
ghost use Rattle.clause_core.specs.declared.literal.Lit.{Lit};
ghost use Rattle.clause_core.specs.Satisfaction.{literal_true};
ghost use Rattle.gates.specs.Models.{IsModel};
ghost use Rattle.gates.specs.Netlists.{Netlist};
ghost use Rattle.word_circuits.specs.Choices.{choose_of, min_of, max_of, abs_of};
ghost use Rattle.word_laws.specs.Numbers.{value};
ghost use Rattle.word_laws.specs.Results.{lesser, greater};

/// A choice of words is a choice of their values.
pub fn law_choose()
    ensures { (s : Bool) (v : ℕ → Bool) (c : Lit) (a b : List Lit) (n : Netlist) → 0 < length a → length a ≡ length b
        → IsModel v (choose_of c a b n).net
        → value s v (choose_of c a b n).word ≡ (if literal_true v c then value s v a else value s v b) }
{}

/// MIN is the lesser of two values.
pub fn law_min()
    ensures { (s : Bool) (v : ℕ → Bool) (a b : List Lit) (n : Netlist) → 0 < length a → length a ≡ length b
        → IsModel v (min_of s a b n).net
        → value s v (min_of s a b n).word ≡ lesser (value s v a) (value s v b) }
{}

/// MAX is the greater of two values.
pub fn law_max()
    ensures { (s : Bool) (v : ℕ → Bool) (a b : List Lit) (n : Netlist) → 0 < length a → length a ≡ length b
        → IsModel v (max_of s a b n).net
        → value s v (max_of s a b n).word ≡ greater (value s v a) (value s v b) }
{}

/// ABS is the value without its sign, wrapped.
pub fn law_abs()
    ensures { (s : Bool) (v : ℕ → Bool) (a : List Lit) (n : Netlist) → 0 < length a
        → IsModel v (abs_of s a n).net
        → value s v (abs_of s a n).word ≡ wrap (length a) s (pos (unsigned_abs (value s v a))) }
{}
