ghost use Rattle.std.specs.Prelude.{◌≡◌, ℕ, ◌<◌, Bool, List, length, ◌+ℤ◌, ◌-ℤ◌, ◌*ℤ◌, neg_ℤ};
ghost use Rattle.num_core.specs.Wrapping.{wrap};
ghost use Rattle.clause_core.specs.declared.literal.Lit.{Lit};
ghost use Rattle.gates.specs.Literals.{false_lit};
ghost use Rattle.gates.specs.Models.{IsModel};
ghost use Rattle.gates.specs.Netlists.{Netlist};
ghost use Rattle.word_circuits.specs.Sums.{add_of, sub_of, neg_of};
ghost use Rattle.word_circuits.specs.Products.{mul_of};
ghost use Rattle.word_laws.specs.Numbers.{value};

/// A sum of words is the sum of their values, wrapped to their width and sign.
pub fn law_add()
    ensures { (s : Bool) (v : ℕ → Bool) (a b : List Lit) (n : Netlist) → 0 < length a → length a ≡ length b
        → IsModel v (add_of a b false_lit n).net
        → value s v (add_of a b false_lit n).word ≡ wrap (length a) s (value s v a +ℤ value s v b) }
{}

/// A difference of words is the difference of their values, wrapped.
pub fn law_sub()
    ensures { (s : Bool) (v : ℕ → Bool) (a b : List Lit) (n : Netlist) → 0 < length a → length a ≡ length b
        → IsModel v (sub_of a b n).net
        → value s v (sub_of a b n).word ≡ wrap (length a) s (value s v a -ℤ value s v b) }
{}

/// The negative of a word is the negative of its value, wrapped.
pub fn law_neg()
    ensures { (s : Bool) (v : ℕ → Bool) (a : List Lit) (n : Netlist) → 0 < length a
        → IsModel v (neg_of a n).net
        → value s v (neg_of a n).word ≡ wrap (length a) s (neg_ℤ (value s v a)) }
{}

/// A product of words is the product of their values, wrapped.
pub fn law_mul()
    ensures { (s : Bool) (v : ℕ → Bool) (a b : List Lit) (n : Netlist) → 0 < length a → length a ≡ length b
        → IsModel v (mul_of a b n).net
        → value s v (mul_of a b n).word ≡ wrap (length a) s (value s v a *ℤ value s v b) }
{}
