// The functions do nothing: their clauses are the laws.
ghost use Rattle.std.specs.Prelude.{◌≡◌, ℕ, [], length, true, Some};
ghost use Rattle.std.specs.List.{AllByRecursion};
ghost use Rattle.call_order.specs.Uses.{uses_at, is_among, order_of};
ghost use Rattle.rules.specs.declared.rule.Refusal.{Refusal};
ghost use Rattle.source_tree.specs.Syntax.{PouData, FileData};
ghost use Rattle.source_tree.specs.Levels.{IsFileLevelled};
ghost use Rattle.naming.specs.FileScope.{pous_of, pou_at};
ghost use Rattle.naming.specs.Scopes.{block_of};
ghost use Rattle.naming.specs.Circles.{uses_of, IsBroken};
ghost use Rattle.typing.specs.Places.{variables_at, sizes_of};
ghost use Rattle.typing.specs.Members.{scope_of};
ghost use Rattle.typing.specs.Pous.{broken_types};
ghost use Rattle.whole_files.specs.WholePous.{IsWholePou, IsNamedBody};

/// In a levelled file that breaks no rule on names and none on types, the variables of each POU are whole, and so is its body, over the scope in which it is
/// typed.
pub fn law_whole()
    ensures { (f : FileData) → ((r : Refusal) → IsBroken f r → ⊥) → IsFileLevelled f → broken_types f ≡ [] → (k : ℕ) (d : PouData) → pou_at f k ≡ Some d → IsWholePou f k d }
{}

/// In a file that breaks no rule on names, the transitions of charts and the associations of their actions name steps of the chart, and a stored action has an association.
pub fn law_chart_names()
    ensures { (f : FileData) → ((r : Refusal) → IsBroken f r → ⊥) → (k : ℕ) (d : PouData) → pou_at f k ≡ Some d → IsNamedBody (scope_of f (sizes_of f) k) d.body }
{}

/// Each POU of such a file uses the blocks of its instances.
pub fn law_used_blocks()
    ensures { (f : FileData) → ((r : Refusal) → IsBroken f r → ⊥) → (k : ℕ) → AllByRecursion (λ v. (b : ℕ) → block_of f v ≡ Some b → is_among b (uses_at (uses_of f) k) ≡ true) (variables_at f k) }
{}

/// And the order of its POUs has them all.
pub fn law_all_ordered()
    ensures { (f : FileData) → ((r : Refusal) → IsBroken f r → ⊥) → length (order_of (uses_of f)) ≡ length (pous_of f) }
{}
