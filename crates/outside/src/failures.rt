// Which calls fail, and how many calls there were.
ghost use Rattle.std.specs.Prelude.{◌≡◌, ◌+◌, ◌-◌, ◌^◌, min};
ghost use Rattle.outside.specs.Failures.{failure_of, count_of, counted, next_of};

/// Which call it is.
#[derive(Clone, Copy, Debug)]
pub enum OutsideCall {
    Read,
    Create,
    Append,
    Put,
}

/// A call that fails: which call it is, its number among those that do the same, from 1, and how many of its bytes are kept.
/// A create that keeps none leaves its file empty, any other leaves it as it was.
#[derive(Clone, Copy)]
pub struct Failure {
    pub call: OutsideCall,
    pub number: u64,
    pub kept: usize,
}

/// How many there were of each call. A count stands still at its type's end.
#[derive(Clone, Copy)]
pub struct CallCounts {
    pub reads: u64,
    pub creates: u64,
    pub appends: u64,
    pub puts: u64,
}

impl CallCounts {
    /// No call so far.
    pub const NONE: CallCounts = CallCounts {
        reads: 0,
        creates: 0,
        appends: 0,
        puts: 0,
    };

    // Counts a call, and says which of those that do the same it is.
    fn count(&mut self, call: OutsideCall) -> u64
        ensures counted { self.new ≡ counted call self.old }
        ensures number { result ≡ count_of call self.new }
    {
        match call {
            OutsideCall::Read => {
                self.reads = self.reads.saturating_add(1);
                self.reads
            }
            OutsideCall::Create => {
                self.creates = self.creates.saturating_add(1);
                self.creates
            }
            OutsideCall::Append => {
                self.appends = self.appends.saturating_add(1);
                self.appends
            }
            OutsideCall::Put => {
                self.puts = self.puts.saturating_add(1);
                self.puts
            }
        }
    }
}

// Counts a call, and finds its failure, if it is on the list.
pub fn next(failures: &[Failure], counts: &mut CallCounts, call: OutsideCall) -> Option<Failure>
    ensures found { result ≡ failure_of failures.now call (next_of (count_of call counts.old)) }
    ensures counted { counts.new ≡ counted call counts.old }
{
    let number = counts.count(call);
    find_failure(failures, call, number)
}

// The failure of that call, if it is on the list: the first one there.
fn find_failure(failures: &[Failure], call: OutsideCall, number: u64) -> Option<Failure>
    ensures { result ≡ failure_of failures.now call number }
{
    for failure in failures {
        if failure.call == call && failure.number == number {
            return Some(*failure);
        }
    }
    None
}
