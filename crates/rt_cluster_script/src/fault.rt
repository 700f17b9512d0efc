use std::alloc::AllocError;
use thiserror::Error;

/// Why a script shows nothing.
#[derive(Clone, Copy, Debug, Error)]
pub enum ClusterFault {
    #[error("out of memory")]
    NoMemory,
    /// The first line that is none, counted from 1.
    #[error("line {line}")]
    Refused { line: u64 },
}

impl From<AllocError> for ClusterFault {
    ghost use Rattle.std.specs.Prelude.{◌≡◌};
    ghost use Rattle.rt_cluster_script.specs.declared.fault.ClusterFault.TheVariants.{NoMemory};

    ghost from_gives = { λ _ fault. fault ≡ NoMemory };

    fn from(_: AllocError) -> ClusterFault {
        ClusterFault::NoMemory
    }
}
