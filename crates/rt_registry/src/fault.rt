use thiserror::Error;

/// Why a binding is refused. The first that applies is told.
#[derive(Clone, Copy, Debug, Drop, PartialEq, Eq, Error)]
pub enum BindingWhy {
    /// The word is no event.
    #[error("event")]
    Event,
    /// The schema has no such table, or no table at all.
    #[error("unknown table")]
    Table,
    /// There is a filter and no table.
    #[error("filter without table")]
    FilterNoTable,
    /// There are more than 8 filters.
    #[error("too many filters")]
    TooManyFilters,
    /// The text is no filter.
    #[error("bad filter")]
    Filter,
    /// No such column, or one that the role may not SELECT.
    #[error("column")]
    Column,
    /// The column's kind is opaque or `Json`.
    #[error("opaque column")]
    Opaque,
    /// The filter has more than 100 values.
    #[error("too many values")]
    TooMany,
    /// A value can't be read in the column's kind.
    #[error("bad value")]
    Value,
}

/// Why a channel's bindings are refused. The first that applies is told.
#[derive(Clone, Copy, Debug, Drop, PartialEq, Eq, Error)]
pub enum RegistryFault {
    /// Memory ran out.
    #[error("out of memory")]
    NoMemory,
    /// The catalogue has no role of the claims' name.
    #[error("unknown role")]
    UnknownRole,
    /// There are more than 100 bindings.
    #[error("too many bindings: {n}")]
    Limit { n: usize },
    /// The first bad binding, counted from 1.
    #[error("binding {n}: {why}")]
    BadBinding { n: usize, why: BindingWhy },
}
