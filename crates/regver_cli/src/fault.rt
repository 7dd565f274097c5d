// An error of the system is a fault: it is counted, and the first one is told on standard error.
ghost use Rattle.std.specs.Prelude.{◌≡◌, Ok, IfOk, IsErr, OnErr, OnOk};
ghost use Rattle.outside.specs.Causes.{HasCause};

use crate::progress::Progress;
use outside::OutErr;
use std::io::{self, Eprint, ErrorKind};
use std::time::Clock;

/// Tells what could not be done, and the system's reason: `cannot read trace.json: no such file`. Where this cannot be told either,
/// nothing more is tried.
pub fn tell_fault(rt: &impl Eprint, doing: &str, name: &str, error: &io::Error) {
    let _told = match error.kind() {
        ErrorKind::NotFound => eprintln!(rt; "cannot {doing} {name}: no such file"),
        _ => eprintln!(rt; "cannot {doing} {name}: {error}"),
    };
}

/// Hands on what the system answered. At an error the count rises, and stands still at its type's end; the first error is told.
pub fn counted<R: Eprint + Clock, T: Drop>(
    progress: &Progress<'_, R>,
    answer: io::Result<T>,
    doing: &str,
    name: &str,
    faults: &mut u64,
) -> Result<T, OutErr>
    ensures ok { IfOk result (λ value. answer ≡ Ok value) }
    ensures err { OnErr result (IsErr answer) }
    ensures uncounted { OnOk result (faults.new ≡ faults.old) }
    ensures cause { HasCause faults.old faults.new result }
{
    match answer {
        Ok(value) => Ok(value),
        Err(error) => {
            if *faults == 0 {
                progress.clear();
                tell_fault(progress.system(), doing, name, &error);
            }
            *faults = faults.saturating_add(1);
            Err(OutErr::Fault)
        }
    }
}
