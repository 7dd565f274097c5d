ghost use Rattle.std.specs.Prelude.{ℕ};
ghost use Rattle.query_formulas.specs.Parts.{Parts};
ghost use Rattle.query_formulas.specs.Products.{product_of};
ghost use Rattle.query_formulas.specs.Breaks.{breaks_of};
ghost use Rattle.pair_decoding.specs.Widths.{IsWideProduct, AreWideRows};

/// The words that are made are as wide as the types of their cells.
pub fn law_wide()
    ensures product { (parts : Parts) (limit : ℕ) → IsWideProduct parts (product_of parts limit) }
    ensures breaks { (parts : Parts) (limit : ℕ) → AreWideRows parts.lines (breaks_of parts limit).scans }
{}
