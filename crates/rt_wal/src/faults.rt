use std::alloc::{AllocError, AllocFailed};
use thiserror::Error;

/// Why a line is no record, the first that applies.
#[derive(Clone, Copy, Debug, PartialEq, Eq)]
pub enum RecordWhy {
    /// The line is no JSON text.
    Json,
    /// The tree has not the members of a record.
    Shape,
    /// The commit time has not its form, or lies outside the years 1 to 9999.
    Time,
}

/// Why a line of a stream was refused.
#[derive(Clone, Copy, Debug, PartialEq, Eq, Error)]
pub enum WalFault {
    /// The line is no record.
    #[error("no record: {why:?}")]
    BadRecord { why: RecordWhy },
    /// Memory ran out.
    #[error("no memory")]
    NoMemory,
}

impl From<AllocError> for WalFault {
    ghost use Rattle.std.specs.Prelude.{◌≡◌};
    ghost use Rattle.rt_wal.specs.declared.faults.WalFault.TheVariants.{NoMemory};

    ghost from_gives = { λ _ e. e ≡ NoMemory };

    fn from(_: AllocError) -> WalFault {
        WalFault::NoMemory
    }
}

impl<T: Drop> From<AllocFailed<T>> for WalFault {
    ghost use Rattle.std.specs.Prelude.{◌≡◌};
    ghost use Rattle.rt_wal.specs.declared.faults.WalFault.TheVariants.{NoMemory};

    ghost from_gives = { λ _ e. e ≡ NoMemory };

    fn from(_: AllocFailed<T>) -> WalFault {
        WalFault::NoMemory
    }
}
