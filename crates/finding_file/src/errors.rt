// Why a line could not be read or written.
ghost use Rattle.std.specs.Prelude.{◌≡◌};

use outside::OutErr;
use std::alloc::AllocError;
use thiserror::Error;

/// Why the next line was not read.
#[derive(Clone, Copy, Debug, Error)]
pub enum ReadErr {
    /// The file failed.
    #[error("the finding cannot be read")]
    Fault,
    /// There was no memory left.
    #[error("out of memory")]
    Memory,
    /// The line holds the first byte past the limit.
    #[error("the finding is too long")]
    M8,
    /// The line of that number is none of a finding's.
    #[error("line {0} is no line of a finding")]
    Spelling(u64),
    /// The file ends before the line feed of the line of that number.
    #[error("line {0} has no end")]
    Unended(u64),
}

/// Why a line was not written.
#[derive(Clone, Copy, Debug, Error)]
pub enum WriteErr {
    /// The file failed.
    #[error("the finding cannot be written")]
    Fault,
    /// There was no memory left.
    #[error("out of memory")]
    Memory,
    /// The line would make the file pass the limit.
    #[error("the finding would be too long")]
    M8,
}

impl From<OutErr> for ReadErr {
    ghost use Rattle.finding_file.specs.Raised.{read_err};

    ghost from_gives = { λ e r. r ≡ read_err e };

    fn from(error: OutErr) -> Self {
        match error {
            OutErr::Fault => ReadErr::Fault,
            OutErr::Memory => ReadErr::Memory,
        }
    }
}

impl From<AllocError> for ReadErr {
    ghost use Rattle.finding_file.specs.declared.errors.ReadErr.TheVariants.{Memory};

    ghost from_gives = { λ _ r. r ≡ Memory };

    fn from(_: AllocError) -> Self {
        ReadErr::Memory
    }
}

impl From<OutErr> for WriteErr {
    ghost use Rattle.finding_file.specs.Raised.{write_err};

    ghost from_gives = { λ e r. r ≡ write_err e };

    fn from(error: OutErr) -> Self {
        match error {
            OutErr::Fault => WriteErr::Fault,
            OutErr::Memory => WriteErr::Memory,
        }
    }
}

impl From<AllocError> for WriteErr {
    ghost use Rattle.finding_file.specs.declared.errors.WriteErr.TheVariants.{Memory};

    ghost from_gives = { λ _ r. r ≡ Memory };

    fn from(_: AllocError) -> Self {
        WriteErr::Memory
    }
}
