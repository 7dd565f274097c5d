// Why a scan has no nodes.
use std::alloc::{AllocError, AllocFailed};
use thiserror::Error;

/// Why a scan has no nodes.
#[derive(Debug, Drop, Error)]
pub enum NodeFault {
    #[error("the scan has too many nodes")]
    TooMany,
    #[error("memory was wanting")]
    Memory,
}

impl From<AllocError> for NodeFault {
    ghost use Rattle.std.specs.Prelude.{◌≡◌};
    ghost use Rattle.scan_ssa.specs.declared.fault.NodeFault.TheVariants.{Memory};

    ghost from_gives = { λ _ e. e ≡ Memory };

    fn from(_: AllocError) -> Self {
        NodeFault::Memory
    }
}
