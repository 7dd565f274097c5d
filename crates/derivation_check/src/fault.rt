use thiserror::Error;

/// Why a step is not taken, with the number of the hint that refuses it.
#[derive(Debug, Drop, Error)]
pub enum StepFault {
    #[error("no clause {0} is held")]
    UnknownHint(u32),
    #[error("clause {0} is neither false nor unit")]
    NotUnit(u32),
    #[error("the hints end without a conflict")]
    NoConflict,
    #[error("out of memory")]
    Memory,
}

/// Why a clause is not deleted.
#[derive(Debug, Drop, Error)]
pub enum DelFault {
    #[error("no derived clause of that number is held")]
    NotHeld,
    #[error("no other clause that is held is a part of it")]
    NotCovered,
}
