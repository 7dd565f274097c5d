// Laws of acceptance.
ghost use Rattle.std.specs.Prelude.{◌≡◌, ℕ, List};
ghost use Rattle.rules.specs.declared.rule.Refusal.{Refusal};
ghost use Rattle.rules.specs.Rules.{IsSame};
ghost use Rattle.program_tree.specs.Tree.{ProgramData};
ghost use Rattle.front_end.specs.Texts.{StatesProgram, StatesNoProgram};

/// There is one answer to a text: it states at most one program, or breaks one rule first (the place of G1 apart), and
/// never both.
pub fn one_acceptance()
    ensures program { (text : List ℕ) (p q : ProgramData) → StatesProgram text p → StatesProgram text q → p ≡ q }
    ensures never_both { (text : List ℕ) (p : ProgramData) (r : Refusal) → StatesProgram text p → StatesNoProgram text r → ⊥ }
    ensures refusal { (text : List ℕ) (r s : Refusal) → StatesNoProgram text r → StatesNoProgram text s → IsSame r s }
{}
