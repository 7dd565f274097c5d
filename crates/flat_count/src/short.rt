// Whether the flat form of a program is short enough.
ghost use Rattle.std.specs.Prelude.{◌≡◌, IfOk};
ghost use Rattle.program_tree.specs.View.{program_view};
ghost use Rattle.flat_form.specs.FlatPrograms.{is_short};

use crate::count::{count_all, count_pous};
use crate::counts::Counts;
use crate::sums::MOST_STATEMENTS;
use program_tree::Program;
use std::alloc::{AllocError, Global};

/// Whether the flat form of a program has at most 200,000 statements, which are counted and not built.
pub fn is_short(alloc: Global, program: &Program) -> Result<bool, AllocError>
    ensures { IfOk result (λ short. short ≡ is_short (program_view program.now)) }
{
    let pous = count_pous(&program.called, alloc)?;
    let counts = Counts {
        called: &program.called,
        runs: &pous.runs,
        bodies: &pous.bodies,
    };
    let count = count_all(&program.body, &counts);
    Ok(count < MOST_STATEMENTS)
}
