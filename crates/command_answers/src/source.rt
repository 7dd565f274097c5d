// Files by their part in a command.

/// The files of a command, as a refusal names them.
#[derive(Clone, Copy, Debug)]
pub enum Source {
    Old,
    New,
    Relation,
    Trace,
    Finding,
}
