// Standard output. What it has taken is not told.
ghost use Rattle.std.specs.Prelude.{◌≡◌, None};

use crate::fault::counted;
use crate::progress::Progress;
use outside::{OutErr, Sink};
use std::io::Eprint;
use std::time::Clock;

/// Standard output, which keeps nothing back: a reader has the bytes of each put as soon as it is done.
#[derive(Drop)]
pub struct StdSink<'a, R> {
    progress: &'a Progress<'a, R>,
    faults: u64,
}

impl<'a, R: Eprint + Print + Clock> StdSink<'a, R> {
    pub fn new(progress: &'a Progress<'a, R>) -> Self
        ensures { (⟦<StdSink<'a, R> as Sink>⟧.state result).faults ≡ 0 }
    {
        StdSink {
            progress,
            faults: 0,
        }
    }
}

impl<R: Eprint + Print + Clock> Sink for StdSink<'_, R> {
    ghost use Rattle.outside.specs.States.{sink_state};

    ghost state = { λ s. sink_state None s.faults };

    fn put(&mut self, bytes: &[u8]) -> Result<(), OutErr> {
        self.progress.clear();
        let answer = self.progress.system().write_all(bytes);
        counted(
            self.progress,
            answer,
            "write",
            "standard output",
            &mut self.faults,
        )
    }
}
