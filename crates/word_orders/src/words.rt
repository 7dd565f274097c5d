ghost use Rattle.std.specs.Prelude.{ℕ, ◌+◌, ◌<◌, Bool, List, [], ℤ};
ghost use Rattle.clause_core.specs.declared.literal.Lit.{Lit};
ghost use Rattle.gates.specs.Netlists.{Netlist, IsExtensionOf};
ghost use Rattle.gates.specs.Order.{IsOrdered, IsLiteralOf, end_of};
ghost use Rattle.word_circuits.specs.Words.{zeros, constant_of, not_word, top_of};
ghost use Rattle.word_circuits.specs.Shifts.{shl_of, shr_of, rol_of, ror_of};
ghost use Rattle.word_circuits.specs.Conversions.{resized};
ghost use Rattle.word_orders.specs.Orders.{IsWordOf};

/// A circuit of no gates is in order, and each variable from TRUE on is one of its circuit's.
pub fn law_start()
    ensures ordered { (free limit : ℕ) → IsOrdered (record { first = free + 2; limit = limit; gates = [] }) }
    ensures literal { (n : Netlist) (x : ℕ) (negative : Bool) → 0 < x → x < end_of n
        → IsLiteralOf n (record { variable = x; negative = negative }) }
{}

/// What is of a circuit is of each circuit that begins with its gates.
pub fn law_later()
    ensures literal { (n later : Netlist) (l : Lit) → IsExtensionOf n later → IsLiteralOf n l → IsLiteralOf later l }
    ensures word { (n later : Netlist) (w : List Lit) → IsExtensionOf n later → IsWordOf n w → IsWordOf later w }
{}

/// Words that take no gates are words of the circuit.
pub fn law_words()
    ensures zeros { (n : Netlist) (width : ℕ) → IsOrdered n → IsWordOf n (zeros width) }
    ensures constant { (n : Netlist) (width : ℕ) (x : ℤ) → IsOrdered n → IsWordOf n (constant_of width x) }
    ensures not { (n : Netlist) (a : List Lit) → IsWordOf n a → IsWordOf n (not_word a) }
    ensures top { (n : Netlist) (a : List Lit) → IsOrdered n → IsWordOf n a → IsLiteralOf n (top_of a) }
    ensures shl { (n : Netlist) (k : ℕ) (a : List Lit) → IsOrdered n → IsWordOf n a → IsWordOf n (shl_of k a) }
    ensures shr { (n : Netlist) (k : ℕ) (a : List Lit) → IsOrdered n → IsWordOf n a → IsWordOf n (shr_of k a) }
    ensures rol { (n : Netlist) (k : ℕ) (a : List Lit) → IsWordOf n a → IsWordOf n (rol_of k a) }
    ensures ror { (n : Netlist) (k : ℕ) (a : List Lit) → IsWordOf n a → IsWordOf n (ror_of k a) }
    ensures resized { (n : Netlist) (s : Bool) (width : ℕ) (a : List Lit) → IsOrdered n → IsWordOf n a → IsWordOf n (resized s width a) }
{}
