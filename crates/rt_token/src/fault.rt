use std::alloc::{AllocError, AllocFailed};
use thiserror::Error;

/// Why a token is refused. The first that applies is told.
#[derive(Clone, Copy, Debug, Drop, PartialEq, Eq, Error)]
pub enum TokenFault {
    #[error("out of memory")]
    NoMemory,
    /// It isn't three base64url parts, the first two JSON objects, or `exp` is no number of seconds.
    #[error("token shape")]
    Shape,
    /// The header's `alg` isn't HS256.
    #[error("token algorithm")]
    Algorithm,
    #[error("token signature")]
    Signature,
    /// It ran out at the second `exp`.
    #[error("token expired at second {exp}")]
    Expired { exp: u64 },
    /// The payload's `role` isn't a text.
    #[error("token without role")]
    NoRole,
}

impl From<AllocError> for TokenFault {
    ghost use Rattle.std.specs.Prelude.{◌≡◌};
    ghost use Rattle.rt_token.specs.declared.fault.TokenFault.TheVariants.{NoMemory};

    ghost from_gives = { λ _ e. e ≡ NoMemory };

    fn from(_: AllocError) -> TokenFault {
        TokenFault::NoMemory
    }
}

impl<T: Drop> From<AllocFailed<T>> for TokenFault {
    ghost use Rattle.std.specs.Prelude.{◌≡◌};
    ghost use Rattle.rt_token.specs.declared.fault.TokenFault.TheVariants.{NoMemory};

    ghost from_gives = { λ _ e. e ≡ NoMemory };

    fn from(_: AllocFailed<T>) -> TokenFault {
        TokenFault::NoMemory
    }
}
