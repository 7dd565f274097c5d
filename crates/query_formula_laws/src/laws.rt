ghost use Rattle.std.specs.Prelude.{ℕ, Bool};
ghost use Rattle.clause_core.specs.Satisfaction.{Satisfies};
ghost use Rattle.queries.specs.Comparisons.{Comparison};
ghost use Rattle.queries.specs.Questions.{QueryData, IsQueryOf};
ghost use Rattle.queries.specs.Meaning.{Means};
ghost use Rattle.node_core.specs.Scans.{ScanData};
ghost use Rattle.query_formulas.specs.Parts.{Parts, parts_of};
ghost use Rattle.query_formulas.specs.Products.{product_of};
ghost use Rattle.query_formulas.specs.Breaks.{breaks_of};
ghost use Rattle.query_formulas.specs.QueryClauses.{IsProductInOrder, AreBreaksInOrder, formula_of};
ghost use Rattle.query_formulas.specs.Decoded.{IsAnswer, decoded_of};
ghost use Rattle.query_formula_laws.specs.TypedComparisons.{HasTypedClauses, IsTypedComparison, IsScanOf};

/// The formula of a query has a solution exactly where the query has an answer.
pub fn law_means()
    ensures { (c : Comparison) (old new : ScanData) (limit : ℕ) (q : QueryData) → IsTypedComparison c → IsScanOf c.old old → IsScanOf c.new new
        → IsQueryOf c q → Means c q (formula_of (parts_of c old new) limit q) }
{}

/// What a solution of the formula of a query stands for is an answer to the query.
pub fn law_decoded()
    ensures { (c : Comparison) (old new : ScanData) (limit : ℕ) (q : QueryData) (values : ℕ → Bool) → IsTypedComparison c → IsScanOf c.old old → IsScanOf c.new new
        → IsQueryOf c q → Satisfies values (formula_of (parts_of c old new) limit q).clauses → IsAnswer c q (decoded_of (parts_of c old new) limit q values) }
{}

/// The gates of the circuit of one scan stand after their operands, and the literals are those of its variables; so do those of scans from
/// the start, and the literals of each scan are those of the variables up to its counts.
pub fn law_order()
    ensures product { (parts : Parts) (limit : ℕ) → IsProductInOrder (product_of parts limit).lits }
    ensures breaks { (parts : Parts) (limit : ℕ) → AreBreaksInOrder (breaks_of parts limit) }
{}

/// Where the cells of both programs and the clauses of the relation are typed, so are its candidates.
pub fn law_candidates()
    ensures { (c : Comparison) → HasTypedClauses c → IsTypedComparison c }
{}
