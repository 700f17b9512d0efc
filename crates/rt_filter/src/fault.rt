ghost use Rattle.std.specs.Prelude.{◌≡◌};
ghost use Rattle.rt_filter.specs.declared.fault.FilterFault.TheVariants.{NoMemory};
ghost use Rattle.rt_filter.specs.Faults.{fault_of};

use rt_value::ValueFault;
use std::alloc::{AllocError, AllocFailed};
use thiserror::Error;

/// Why a text is no filter, or a filter doesn't fit a table's columns.
#[derive(Clone, Copy, Debug, Drop, PartialEq, Eq, Error)]
pub enum FilterFault {
    #[error("out of memory")]
    NoMemory,
    /// The text isn't a filter.
    #[error("bad filter")]
    BadFilter,
    /// There is no such column, or the role may not SELECT it.
    #[error("column")]
    ColumnHidden,
    /// The column's kind is opaque or `Json`.
    #[error("opaque column")]
    Opaque,
    /// There are more than 100 values.
    #[error("too many values: {n}")]
    TooMany { n: usize },
    /// A value can't be read in the column's kind.
    #[error("bad value")]
    BadValue,
}

impl From<AllocError> for FilterFault {
    ghost from_gives = { λ _ e. e ≡ NoMemory };

    fn from(_error: AllocError) -> FilterFault {
        FilterFault::NoMemory
    }
}

impl<T: Drop> From<AllocFailed<T>> for FilterFault {
    ghost from_gives = { λ _ e. e ≡ NoMemory };

    fn from(_error: AllocFailed<T>) -> FilterFault {
        FilterFault::NoMemory
    }
}

/// A value that isn't one of its column's kind is a `BadValue`.
impl From<ValueFault> for FilterFault {
    ghost from_gives = { λ fault e. e ≡ fault_of fault };

    fn from(fault: ValueFault) -> FilterFault {
        match fault {
            ValueFault::BadText => FilterFault::BadValue,
            ValueFault::NoMemory => FilterFault::NoMemory,
        }
    }
}
