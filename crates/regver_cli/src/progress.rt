// What people who wait are told on standard error, where that is a terminal: how much of the finding has been saved, on one line, once
// a second at most. No clause speaks of it, and standard output has nothing of it.
use finding_progress::Saved;
use std::cell::Cell;
use std::io::Eprint;
use std::time::{Clock, Instant};

/// The line that tells how far the run is.
#[derive(Drop)]
pub struct Progress<'a, R> {
    rt: &'a R,
    is_terminal: bool,
    saved: Cell<Saved>,
    told: Cell<Option<Instant>>,
}

impl<'a, R: Eprint + Clock> Progress<'a, R> {
    /// Nothing is told yet, and nothing ever where standard error is no terminal.
    pub fn new(rt: &'a R, is_terminal: bool) -> Self {
        Progress {
            rt,
            is_terminal,
            saved: Cell::new(Saved::NOTHING),
            told: Cell::new(None),
        }
    }

    /// The system, as the program was given it.
    pub fn system(&self) -> &'a R {
        self.rt
    }

    // Whether a second has passed since the line was told. A clock that cannot be read tells no time.
    fn is_due(&self, now: Instant) -> bool {
        match self.told.get() {
            Some(then) => now.duration_since(then).as_secs() >= 1,
            None => true,
        }
    }

    /// Counts a line that was saved, and tells it where it is time to.
    pub fn count(&self, line: &[u8]) {
        if !self.is_terminal {
            return;
        }
        let saved = self.saved.get().with_line(line);
        self.saved.set(saved);
        if let Ok(now) = Instant::now(self.rt) {
            if self.is_due(now) {
                self.told.set(Some(now));
                let _told = eprint!(self.rt; "\r{saved}\x1b[K");
            }
        }
    }

    /// Clears the line, so that something else may stand there.
    pub fn clear(&self) {
        if self.told.replace(None).is_some() {
            let _cleared = eprint!(self.rt; "\r\x1b[K");
        }
    }
}
