use thiserror::Error;

/// Why a catalogue's text is refused.
#[derive(Clone, Copy, Debug, Drop, PartialEq, Eq, Error)]
pub enum Why {
    /// No token begins here, or the token can't go on.
    #[error("syntax")]
    Syntax,
    /// A second table, column, role, policy of one table or key clause of the same name.
    #[error("twice")]
    Twice,
    /// A table, column or role that no earlier statement made.
    #[error("unknown name")]
    UnknownName,
    /// A key column whose kind is opaque or `Json`.
    #[error("opaque key")]
    OpaqueKey,
    /// Kinds that don't go together in an expression.
    #[error("type")]
    BadType,
    /// Policies whose subqueries lead from a table to itself.
    #[error("ring")]
    Ring,
    /// A subquery that a role of the policy may not run, for want of a grant.
    #[error("hidden column")]
    HiddenColumn,
    /// A limit is passed.
    #[error("limit {n}")]
    Limit { n: usize },
}

/// Why a catalogue is not read.
#[derive(Clone, Copy, Debug, Drop, PartialEq, Eq, Error)]
pub enum CatalogFault {
    /// Memory ran out.
    #[error("out of memory")]
    NoMemory,
    /// The place is a byte of the text, or its length.
    #[error("{why} at byte {at}")]
    Refused { at: usize, why: Why },
}
