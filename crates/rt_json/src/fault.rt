use std::alloc::{AllocError, AllocFailed};
use thiserror::Error;

/// Why bytes are not read as a tree.
#[derive(Debug, Drop, Error)]
pub enum JsonFault {
    /// The first byte with which the bytes up to it begin no value of whatever depth, or the length where all the
    /// bytes begin a value and are none.
    #[error("no JSON from byte {at} on")]
    Bad { at: usize },
    /// The byte at which a list or an object of depth 65 begins.
    #[error("too deep at byte {at}")]
    TooDeep { at: usize },
    #[error("out of memory")]
    NoMemory,
}

impl From<AllocError> for JsonFault {
    ghost use Rattle.std.specs.Prelude.{◌≡◌};
    ghost use Rattle.rt_json.specs.declared.fault.JsonFault.TheVariants.{NoMemory};

    ghost from_gives = { λ _ e. e ≡ NoMemory };

    fn from(_: AllocError) -> JsonFault {
        JsonFault::NoMemory
    }
}

impl<T: Drop> From<AllocFailed<T>> for JsonFault {
    ghost use Rattle.std.specs.Prelude.{◌≡◌};
    ghost use Rattle.rt_json.specs.declared.fault.JsonFault.TheVariants.{NoMemory};

    ghost from_gives = { λ _ e. e ≡ NoMemory };

    fn from(_: AllocFailed<T>) -> JsonFault {
        JsonFault::NoMemory
    }
}
