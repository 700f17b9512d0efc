use rt_value::{List, Text};

/// The type of a column of the first path.
#[derive(Clone, Copy)]
pub enum ColumnType {
    /// `int4`, a whole number of 32 bits.
    Int4,
    /// `text`
    Text,
}

/// A column of the table.
#[derive(Drop)]
pub struct Column {
    /// The column's name.
    pub name: Text,
    /// What its values are.
    pub column_type: ColumnType,
}

/// A table of the schema `public`.
#[derive(Drop)]
pub struct Table {
    /// The table's name.
    pub name: Text,
    /// Its two columns, in the order of the statement.
    pub columns: List<Column>,
    /// The place of the primary key's column, from 0.
    pub key: usize,
}

/// One table, and the role that may read it.
#[derive(Drop)]
pub struct Catalogue {
    /// The table.
    pub table: Table,
    /// The name of the role.
    pub role: Text,
}
