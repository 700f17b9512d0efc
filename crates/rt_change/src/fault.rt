use rt_value::Text;
use thiserror::Error;

/// Why a record doesn't fit the catalogue, or a tree a kind. The first that applies is told.
#[derive(Debug, Drop, Error)]
pub enum ChangeFault {
    /// Memory ran out.
    #[error("out of memory")]
    NoMemory,
    /// The record's primary key isn't the table's.
    #[error("key")]
    KeyDiffers,
    /// The table has no such column.
    #[error("column")]
    ColumnUnknown { name: Text },
    /// The value isn't of the column's kind, or a key column has none.
    #[error("value")]
    BadValue { name: Text },
}
