// What circuits mean: each law speaks of the definitions alone.

ghost use Rattle.std.specs.Prelude.{◌≡◌, ℕ, ◌<◌, ◌≤◌, ◌+◌, ◌↔◌, Bool, true, ◌&&◌, ◌||◌, if◌then◌else◌, IsTrue};
ghost use Rattle.clause_core.specs.declared.literal.Lit.{Lit};
ghost use Rattle.clause_core.specs.declared.gate.Gate.{Gate};
ghost use Rattle.clause_core.specs.Satisfaction.{literal_true, Satisfies};
ghost use Rattle.gates.specs.declared.plan.Plan.{Plan};
ghost use Rattle.gates.specs.Clauses.{gate_clauses, formula_of};
ghost use Rattle.gates.specs.Meaning.{gate_true, exactly_one};
ghost use Rattle.gates.specs.Models.{IsModel, ExtendsOnce};
ghost use Rattle.gates.specs.Netlists.{Netlist, make, IsExtensionOf};
ghost use Rattle.gates.specs.Order.{IsOrdered, IsLiteralOf, IsOrderedAfter, end_of};
ghost use Rattle.gates.specs.Rules.{and_of, or_of, xor_of, mux_of};

/// In each model of the circuit after it, what a rule makes has the rule's value.
pub fn law_values()
    ensures and { (v : ℕ → Bool) (a b : Lit) (n : Netlist) → IsModel v (and_of a b n).net
        → literal_true v (and_of a b n).lit ≡ (literal_true v a && literal_true v b) }
    ensures or { (v : ℕ → Bool) (a b : Lit) (n : Netlist) → IsModel v (or_of a b n).net
        → literal_true v (or_of a b n).lit ≡ (literal_true v a || literal_true v b) }
    ensures xor { (v : ℕ → Bool) (a b : Lit) (n : Netlist) → IsModel v (xor_of a b n).net
        → literal_true v (xor_of a b n).lit ≡ exactly_one (literal_true v a) (literal_true v b) }
    ensures mux { (v : ℕ → Bool) (c a b : Lit) (n : Netlist) → IsModel v (mux_of c a b n).net
        → literal_true v (mux_of c a b n).lit ≡ (if literal_true v c then literal_true v a else literal_true v b) }
{}

/// A plan adds gates behind those that are there, and a model of a circuit is one of its front.
pub fn law_growth()
    ensures grows { (p : Plan) (n : Netlist) → IsExtensionOf n (make p n).net }
    ensures front { (v : ℕ → Bool) (n later : Netlist) → IsExtensionOf n later → IsModel v later → IsModel v n }
{}

/// From a circuit whose gates stand after their operands, literals of it make another such circuit.
pub fn law_order()
    ensures and { (a b : Lit) (n : Netlist) → IsOrdered n → IsLiteralOf n a → IsLiteralOf n b
        → IsOrderedAfter (end_of n) (and_of a b n) }
    ensures or { (a b : Lit) (n : Netlist) → IsOrdered n → IsLiteralOf n a → IsLiteralOf n b
        → IsOrderedAfter (end_of n) (or_of a b n) }
    ensures xor { (a b : Lit) (n : Netlist) → IsOrdered n → IsLiteralOf n a → IsLiteralOf n b
        → IsOrderedAfter (end_of n) (xor_of a b n) }
    ensures mux { (c a b : Lit) (n : Netlist) → IsOrdered n → IsLiteralOf n c → IsLiteralOf n a → IsLiteralOf n b
        → IsOrderedAfter (end_of n) (mux_of c a b n) }
{}

/// The clauses of a gate are satisfied exactly where its variable has its value, and a circuit's by its models.
pub fn law_clauses()
    ensures gate { (v : ℕ → Bool) (x : ℕ) (g : Gate)
        → (Satisfies v (gate_clauses x g)) ↔ (v x ≡ gate_true v g) }
    ensures circuit { (v : ℕ → Bool) (n : Netlist) → (Satisfies v (formula_of n)) ↔ (IsModel v n) }
{}

/// Each setting of TRUE and the free bits extends to exactly one assignment that satisfies the clauses.
pub fn law_one_model()
    ensures { (n : Netlist) (setting : ℕ → Bool) → IsOrdered n → setting 1 ≡ true → ExtendsOnce n setting }
{}
