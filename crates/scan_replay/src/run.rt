// One scan.
ghost use Rattle.std.specs.Prelude.{◌≡◌, ◌≤◌, length};
ghost use Rattle.program_tree.specs.View.{cells_view, program_view};
ghost use Rattle.scan_model.specs.Scans.{ranges_of, scanned};
ghost use Rattle.scan_replay.specs.Machines.{room_of_program};

use crate::cells::put;
use interpreter::{Scope, run_all};
use plc_types::{Range, Value};
use program_tree::Program;

/// FAULT becomes FALSE, then the body runs. The ranges are those of the program's cells, and its calls and charts have room on the
/// stack.
pub fn scan(program: &Program, ranges: &[Range], state: &mut [Value], stack: &mut [Value])
    requires ranges { ranges.now ≡ ranges_of (cells_view program.now.cells.items) }
    requires room { room_of_program program.now ≤ length stack.old }
    ensures state { state.new ≡ scanned (program_view program.now) state.old }
    ensures room { length stack.new ≡ length stack.old }
{
    put(state, 0, 0);
    let scope = Scope {
        ranges,
        base: 0,
        called: &program.called,
        below: program.called.len(),
    };
    run_all(&program.body, &scope, state, stack);
}
