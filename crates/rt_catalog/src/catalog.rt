use rt_policy::Rules;
use rt_value::{Kind, List, Text};

/// A column of a table.
#[derive(Drop)]
pub struct Column {
    /// The name that the column keeps.
    pub name: Text,
    /// What its values are read as.
    pub kind: Kind,
    /// The type's name as it is shown to clients.
    pub shown: Text,
}

/// A table of the catalogue.
#[derive(Drop)]
pub struct Table {
    /// The schema that the table is of.
    pub schema: Text,
    /// The table's name within its schema.
    pub name: Text,
    /// The columns in the order of their statement; a column is named by its place, from 0.
    pub columns: List<Column>,
    /// The numbers of the key's columns, in the order of the key. A table without a primary key has none.
    pub key: List<u32>,
}

/// A role of the catalogue.
#[derive(Drop)]
pub struct Role {
    /// The name that claims call it by.
    pub name: Text,
    /// Whether the role bypasses row security.
    pub bypass: bool,
}

/// The right to SELECT a column of a table. No column means the whole table, and no role PUBLIC.
#[derive(Clone, Copy, Debug, Drop, PartialEq, Eq)]
pub struct Grant {
    /// The table's number.
    pub table: u32,
    /// The column's place in the table.
    pub column: Option<u32>,
    /// The role's number.
    pub role: Option<u32>,
}

/// A role is a member of another, which is then its group.
#[derive(Clone, Copy, Debug, Drop, PartialEq, Eq)]
pub struct Membership {
    pub role: u32,
    pub group: u32,
}

/// Tables and roles are named by their numbers, in the order of their statements. The rules have an entry for each table.
#[derive(Drop)]
pub struct Catalog {
    /// The tables in the order of their statements.
    pub tables: List<Table>,
    /// The roles in the order of their statements.
    pub roles: List<Role>,
    /// The grants in the order of their statements.
    pub grants: List<Grant>,
    /// Row security, by the table's number.
    pub rules: Rules,
}
