ghost use Rattle.std.specs.Prelude.{◌≡◌};
ghost use Rattle.rt_sql.specs.declared.fault.SqlFault.TheVariants.{NoMemory};

use std::alloc::{AllocError, AllocFailed};
use thiserror::Error;

/// Why a text has no tokens.
#[derive(Debug, Drop, Error)]
pub enum SqlFault {
    /// The text before the byte `at` is cut, and no token, blank or comment begins there.
    #[error("no token begins at byte {at}")]
    BadToken { at: usize },

    /// Memory ran out.
    #[error("out of memory")]
    NoMemory,
}

impl From<AllocError> for SqlFault {
    ghost from_gives = { λ _ fault. fault ≡ NoMemory };

    fn from(_error: AllocError) -> SqlFault {
        SqlFault::NoMemory
    }
}

impl<T: Drop> From<AllocFailed<T>> for SqlFault {
    ghost from_gives = { λ _ fault. fault ≡ NoMemory };

    fn from(_error: AllocFailed<T>) -> SqlFault {
        SqlFault::NoMemory
    }
}
