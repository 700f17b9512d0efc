use std::alloc::AllocError;
use thiserror::Error;

/// Why a text is no expression, or an expression has no meaning.
#[derive(Clone, Copy, Debug, Drop, PartialEq, Eq, Error)]
pub enum ExprFault {
    #[error("out of memory")]
    NoMemory,
    /// The token of this number, or the end, is the first that can't go on.
    #[error("token {at} can't go on")]
    BadExpr { at: usize },
    /// The expression's depth is over 32; it ends before the token of this number. Some name in it
    /// may be longer than 63 bytes.
    #[error("the expression before token {to} is too deep")]
    TooDeep { to: usize, long_name: bool },
    /// A table or a column that isn't there.
    #[error("unknown name")]
    UnknownName,
    /// Kinds that don't go together, or a constant that can't be read.
    #[error("type")]
    BadType,
}

impl From<AllocError> for ExprFault {
    ghost use Rattle.std.specs.Prelude.{◌≡◌};
    ghost use Rattle.rt_policy.specs.declared.fault.ExprFault.TheVariants.{NoMemory};

    ghost from_gives = { λ _ e. e ≡ NoMemory };

    fn from(_: AllocError) -> ExprFault {
        ExprFault::NoMemory
    }
}
