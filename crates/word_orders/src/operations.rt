ghost use Rattle.std.specs.Prelude.{Bool, List, ℤ};
ghost use Rattle.clause_core.specs.declared.literal.Lit.{Lit};
ghost use Rattle.gates.specs.Netlists.{Netlist};
ghost use Rattle.gates.specs.Order.{IsOrdered, IsLiteralOf};
ghost use Rattle.word_circuits.specs.declared.bits.BitOperator.{BitOperator};
ghost use Rattle.word_circuits.specs.declared.comparisons.Comparison.{Comparison};
ghost use Rattle.word_circuits.specs.declared.divide.Part.{Part};
ghost use Rattle.word_circuits.specs.Words.{bit_of, bitwise_of};
ghost use Rattle.word_circuits.specs.Sums.{add_of, sub_of, neg_of};
ghost use Rattle.word_circuits.specs.Products.{mul_of};
ghost use Rattle.word_circuits.specs.Comparisons.{eq_of, is_zero_of, lt_of, comparison_of, outside_of};
ghost use Rattle.word_circuits.specs.Choices.{choose_of, sel_of, min_of, max_of, abs_of};
ghost use Rattle.word_circuits.specs.Divisions.{division_of};
ghost use Rattle.word_circuits.specs.Conversions.{any_of};
ghost use Rattle.word_orders.specs.Orders.{IsWordOf, MakesLiteral, MakesWord, MakesSum};

/// AND, OR and XOR of bits and of words, and the OR of all bits.
pub fn law_bits()
    ensures bit { (o : BitOperator) (a b : Lit) (n : Netlist) → IsOrdered n → IsLiteralOf n a → IsLiteralOf n b
        → MakesLiteral n (bit_of o a b n) }
    ensures bitwise { (o : BitOperator) (a b : List Lit) (n : Netlist) → IsOrdered n → IsWordOf n a → IsWordOf n b
        → MakesWord n (bitwise_of o a b n) }
    ensures any { (a : List Lit) (n : Netlist) → IsOrdered n → IsWordOf n a → MakesLiteral n (any_of a n) }
{}

/// Sums, differences, negatives and products.
pub fn law_sums()
    ensures add { (a b : List Lit) (c : Lit) (n : Netlist) → IsOrdered n → IsWordOf n a → IsWordOf n b → IsLiteralOf n c
        → MakesSum n (add_of a b c n) }
    ensures sub { (a b : List Lit) (n : Netlist) → IsOrdered n → IsWordOf n a → IsWordOf n b → MakesSum n (sub_of a b n) }
    ensures neg { (a : List Lit) (n : Netlist) → IsOrdered n → IsWordOf n a → MakesSum n (neg_of a n) }
    ensures mul { (a b : List Lit) (n : Netlist) → IsOrdered n → IsWordOf n a → IsWordOf n b → MakesWord n (mul_of a b n) }
{}

/// Comparisons.
pub fn law_comparisons()
    ensures equal { (a b : List Lit) (n : Netlist) → IsOrdered n → IsWordOf n a → IsWordOf n b → MakesLiteral n (eq_of a b n) }
    ensures is_zero { (a : List Lit) (n : Netlist) → IsOrdered n → IsWordOf n a → MakesLiteral n (is_zero_of a n) }
    ensures less { (s : Bool) (a b : List Lit) (n : Netlist) → IsOrdered n → IsWordOf n a → IsWordOf n b
        → MakesLiteral n (lt_of s a b n) }
    ensures compare { (k : Comparison) (s : Bool) (a b : List Lit) (n : Netlist) → IsOrdered n → IsWordOf n a → IsWordOf n b
        → MakesLiteral n (comparison_of k s a b n) }
    ensures outside { (s : Bool) (a : List Lit) (low high : ℤ) (n : Netlist) → IsOrdered n → IsWordOf n a
        → MakesLiteral n (outside_of s a low high n) }
{}

/// Choices between words.
pub fn law_choices()
    ensures choose { (c : Lit) (a b : List Lit) (n : Netlist) → IsOrdered n → IsLiteralOf n c → IsWordOf n a → IsWordOf n b
        → MakesWord n (choose_of c a b n) }
    ensures sel { (g : Lit) (a b : List Lit) (n : Netlist) → IsOrdered n → IsLiteralOf n g → IsWordOf n a → IsWordOf n b
        → MakesWord n (sel_of g a b n) }
    ensures min { (s : Bool) (a b : List Lit) (n : Netlist) → IsOrdered n → IsWordOf n a → IsWordOf n b
        → MakesWord n (min_of s a b n) }
    ensures max { (s : Bool) (a b : List Lit) (n : Netlist) → IsOrdered n → IsWordOf n a → IsWordOf n b
        → MakesWord n (max_of s a b n) }
    ensures abs { (s : Bool) (a : List Lit) (n : Netlist) → IsOrdered n → IsWordOf n a → MakesWord n (abs_of s a n) }
{}

/// Quotients and remainders.
pub fn law_division()
    ensures { (p : Part) (s : Bool) (a b : List Lit) (n : Netlist) → IsOrdered n → IsWordOf n a → IsWordOf n b
        → MakesWord n (division_of p s a b n) }
{}
