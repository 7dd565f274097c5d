ghost use Rattle.std.specs.Prelude.{◌≡◌, ℕ, ◌<◌, Bool, true, List, length, map, take, All};
ghost use Rattle.plc_types.specs.declared.elementary.Elementary.{Elementary};
ghost use Rattle.node_core.specs.declared.node.Node.{Node};
ghost use Rattle.node_core.specs.Nodes.{NodesHold, WordsAre};
ghost use Rattle.node_core.specs.NodeTypes.{AreTypedNodes, all_kinds};
ghost use Rattle.node_core.specs.NodeLaws.{AreWordsOf};
ghost use Rattle.gates.specs.Netlists.{Netlist, IsExtensionOf};
ghost use Rattle.gates.specs.Models.{IsModel, ExtendsOnce};
ghost use Rattle.gates.specs.Order.{IsOrdered};
ghost use Rattle.word_orders.specs.Orders.{IsWordOf};
ghost use Rattle.node_circuits.specs.NodeWords.{Words, word_in, words_of_nodes};
ghost use Rattle.node_circuit_laws.specs.WordValues.{HaveWidths, value_at, values_of, MakesWords};

/// In every assignment that gives the gates their values, each node of typed nodes has its value, where a word's value is what
/// its literals spell as a number of its type.
pub fn law_values()
    ensures { (ts : List Elementary) (nodes : List Node) (words : Words) (n : Netlist) (v : ℕ → Bool)
        → AreTypedNodes ts nodes → HaveWidths ts words → IsModel v (words_of_nodes nodes words n).net
        → NodesHold (value_at v (all_kinds ts nodes) (words_of_nodes nodes words n).words) (length words) nodes }
{}

/// Each word has the width of its type.
pub fn law_widths()
    ensures { (ts : List Elementary) (nodes : List Node) (words : Words) (n : Netlist)
        → HaveWidths ts words → HaveWidths (all_kinds ts nodes) (words_of_nodes nodes words n).words }
{}

/// The circuit begins with its old gates; the start words stay, and so do their values.
pub fn law_starts()
    ensures gates { (nodes : List Node) (words : Words) (n : Netlist) → IsExtensionOf n (words_of_nodes nodes words n).net }
    ensures words { (nodes : List Node) (words : Words) (n : Netlist)
        → take (length words) (words_of_nodes nodes words n).words ≡ words }
    ensures values { (ts : List Elementary) (nodes : List Node) (words : Words) (n : Netlist) (v : ℕ → Bool) (i : ℕ)
        → HaveWidths ts words → i < length words
        → value_at v (all_kinds ts nodes) (words_of_nodes nodes words n).words i ≡ value_at v ts words i }
{}

/// The values of the start words stand in their order as those of a state, and so do those of some words, each of its type: so
/// what a scan's nodes mean is said of the words that its cells hold before and after.
pub fn law_states()
    ensures starts { (ts : List Elementary) (nodes : List Node) (words : Words) (n : Netlist) (v : ℕ → Bool) → HaveWidths ts words
        → WordsAre (value_at v (all_kinds ts nodes) (words_of_nodes nodes words n).words) 0 (values_of v ts words) }
    ensures last { (ts kinds : List Elementary) (nodes : List Node) (words : Words) (n : Netlist) (v : ℕ → Bool) (last : List ℕ)
        → AreWordsOf (all_kinds ts nodes) kinds last
        → map (value_at v (all_kinds ts nodes) (words_of_nodes nodes words n).words) last
        ≡ values_of v kinds (map (word_in (words_of_nodes nodes words n).words) last) }
{}

/// Each gate stands behind its operands, and all words are of the circuit; so each setting of TRUE and the free bits extends to
/// exactly one assignment that gives the gates their values.
pub fn law_order()
    ensures words { (nodes : List Node) (words : Words) (n : Netlist) → IsOrdered n → All (IsWordOf n) words
        → MakesWords n (words_of_nodes nodes words n) }
    ensures once { (nodes : List Node) (words : Words) (n : Netlist) (setting : ℕ → Bool) → IsOrdered n → All (IsWordOf n) words
        → setting 1 ≡ true → ExtendsOnce (words_of_nodes nodes words n).net setting }
{}
