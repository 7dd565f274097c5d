// Laws of relations.
ghost use Rattle.std.specs.Prelude.{◌≡◌, ℕ, List, true};
ghost use Rattle.source_tree.specs.declared.token.Tok.{Tok};
ghost use Rattle.rules.specs.declared.rule.Refusal.{Refusal};
ghost use Rattle.rules.specs.Rules.{IsSame};
ghost use Rattle.program_tree.specs.Tree.{ProgramData};
ghost use Rattle.grammar.specs.Same.{AreSameTokens};
ghost use Rattle.scan_model.specs.Pairs.{RelationData};
ghost use Rattle.relation_file.specs.Stated.{IsRelation, IsNoRelation, has_few_candidates, IsNoSmallRelation};

/// Tokens that spell the same state at most one relation, or break one rule first (the place of G1 apart), and never both.
pub fn one_relation()
    ensures relation { (old new : ProgramData) (end : ℕ) (ts us : List Tok) (x y : RelationData) → AreSameTokens ts us → IsRelation old new end ts x → IsRelation old new end us y → x ≡ y }
    ensures never_both { (old new : ProgramData) (end : ℕ) (ts us : List Tok) (x : RelationData) (r : Refusal) → AreSameTokens ts us → IsRelation old new end ts x → IsNoRelation old new end us r → ⊥ }
    ensures refusal { (old new : ProgramData) (end : ℕ) (ts us : List Tok) (r s : Refusal) → AreSameTokens ts us → IsNoRelation old new end ts r → IsNoRelation old new end us s → IsSame r s }
{}

/// The same where candidates are counted too: there is no relation of at most 4,096 candidates where a rule is broken first, and
/// one rule is.
pub fn one_small_relation()
    ensures never_both { (old new : ProgramData) (end : ℕ) (ts us : List Tok) (x : RelationData) (r : Refusal) → AreSameTokens ts us → IsRelation old new end ts x → has_few_candidates x ≡ true → IsNoSmallRelation old new end us r → ⊥ }
    ensures refusal { (old new : ProgramData) (end : ℕ) (ts us : List Tok) (r s : Refusal) → AreSameTokens ts us → IsNoSmallRelation old new end ts r → IsNoSmallRelation old new end us s → IsSame r s }
{}
