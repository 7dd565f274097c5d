// The function does nothing: its clause is the law.
ghost use Rattle.queries.specs.Comparisons.{Comparison};
ghost use Rattle.query_formula_laws.specs.TypedComparisons.{IsTypedComparison};
ghost use Rattle.typed_relations.specs.Readings.{AreRead};

/// Programs and a relation that were read are a comparison whose cells have ranges of their types, whose INPUT lines name cells of one type, and whose
/// clauses and candidates are typed over OLD's cells and then NEW's.
pub fn law_typed_comparisons()
    ensures { (c : Comparison) → AreRead c → IsTypedComparison c }
{}
