use crate::{Cells, Key};

/// What a change does to its table.
#[derive(Debug, Drop)]
pub enum Edit {
    /// Puts a row at the key `new`. A row at the key `old` is moved there; the cells that are not
    /// given are those of that row, and null where there is none.
    Put {
        old: Option<Key>,
        new: Key,
        cells: Cells,
    },
    /// Takes the row at the key away.
    Remove {
        key: Key,
    },
    /// Takes all rows away.
    Clear,
    /// Leaves the table as it is.
    Nothing,
}
