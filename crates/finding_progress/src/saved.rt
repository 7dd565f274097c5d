// The counts of what has been saved.
ghost use Rattle.std.specs.Prelude.{◌≡◌, if◌then◌else◌};
ghost use Rattle.finding_progress.specs.Counting.{more, answers_query, with_line};

use std::fmt::{self, Display, Formatter};

/// What has been saved of a finding so far. A count stands still at its type's end.
#[derive(Clone, Copy)]
pub struct Saved {
    /// Lines that drop candidates.
    pub drops: u64,
    /// Queries that are answered, by a row or by a log.
    pub queries: u64,
    /// Derivations.
    pub derivations: u64,
    /// Bytes of all lines.
    pub bytes: u64,
}

// Whether the line answers a query: a row, or the first line of a log.
fn answers_query(line: &[u8]) -> bool
    ensures { result ≡ answers_query line.now }
{
    line.starts_with(b"SEEN")
        || line.starts_with(b"PAIR")
        || line.starts_with(b"LOG")
        || line.starts_with(b"QUERY")
}

// One more where that is so.
fn more_where(is_so: bool, count: u64) -> u64
    ensures { result ≡ (if is_so then more count 1 else count) }
{
    if is_so {
        count.saturating_add(1)
    } else {
        count
    }
}

impl Saved {
    /// Nothing so far.
    pub const NOTHING: Saved = Saved {
        drops: 0,
        queries: 0,
        derivations: 0,
        bytes: 0,
    };

    /// The counts behind one more line.
    pub fn with_line(self, line: &[u8]) -> Saved
        ensures { result ≡ with_line line.now self }
    {
        Saved {
            drops: more_where(line.starts_with(b"DROP"), self.drops),
            queries: more_where(answers_query(line), self.queries),
            derivations: more_where(line.starts_with(b"D "), self.derivations),
            bytes: self.bytes.saturating_add(line.len() as u64),
        }
    }
}

impl Display for Saved {
    fn fmt<W: fmt::Write>(&self, f: &mut Formatter<W>) -> fmt::Result {
        write!(
            f,
            "saved so far: {} drops, {} queries answered, {} derivations, {} bytes",
            self.drops, self.queries, self.derivations, self.bytes
        )
    }
}
