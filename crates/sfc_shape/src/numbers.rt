// The numbers of a chart's steps, by name.
ghost use Rattle.std.specs.Prelude.{◌≡◌, ℕ, List, IfOk};
ghost use Rattle.std.specs.HashMap.{get_by_text};
ghost use Rattle.sfc_shape.specs.ShapeView.{seen_steps, number_found};

use indexmap::IndexMap;
use source_tree::ChartStep;
use std::alloc::{AllocError, Global};

/// The numbers of steps, by name.
pub type Numbers = IndexMap<String, usize>;

/// The numbers of steps, which are counted from 0.
pub fn numbers(alloc: Global, steps: &[&ChartStep]) -> Result<Numbers, AllocError>
    ensures { IfOk result (λ m. (text : List ℕ) → get_by_text m text ≡ number_found 0 (seen_steps steps.now) text) }
{
    let mut numbers = IndexMap::new(alloc);
    for (number, step) in steps.iter().enumerate() {
        if number_at(&numbers, step.name.text.as_str()).is_none() {
            numbers.insert(step.name.text.clone()?, number)?;
        }
    }
    Ok(numbers)
}

// The number of a step, by its name.
fn number_at(numbers: &Numbers, text: &str) -> Option<usize>
    ensures { result ≡ get_by_text numbers.now text.now }
{
    numbers.get(text).copied()
}
