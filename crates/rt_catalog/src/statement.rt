use rt_policy::{Expr, TypeName};
use rt_value::{List, Text};

/// A table's name with its schema, `public` where none is written.
#[derive(Drop)]
pub struct TableName {
    /// The name before the dot, or `public`.
    pub schema: Text,
    /// The name behind it.
    pub name: Text,
}

/// What may stand behind a column's type.
#[derive(Clone, Copy, Debug, Drop, PartialEq, Eq)]
pub enum Mark {
    /// NOT NULL
    NotNull,
    /// NULL
    Null,
    /// PRIMARY KEY: the column alone is the key.
    PrimaryKey,
}

/// An item of CREATE TABLE.
#[derive(Drop)]
pub enum Item {
    /// A column with its type.
    Column {
        /// The column's name.
        name: Text,
        /// The type as it is written.
        kind: TypeName,
        /// What stands behind the type, in its order.
        marks: List<Mark>,
    },
    /// PRIMARY KEY with a list of columns.
    Key {
        /// The names of the key's columns, in the order of the key.
        columns: List<Text>,
    },
}

/// A word of CREATE ROLE.
#[derive(Clone, Copy, Debug, Drop, PartialEq, Eq)]
pub enum Login {
    /// LOGIN
    Login,
    /// NOLOGIN
    NoLogin,
    /// INHERIT
    Inherit,
    /// NOINHERIT
    NoInherit,
    /// BYPASSRLS: row security shows the role every row.
    BypassRls,
    /// NOBYPASSRLS
    NoBypassRls,
}

/// What a policy is for.
#[derive(Clone, Copy, Debug, Drop, PartialEq, Eq)]
pub enum Command {
    /// FOR ALL
    All,
    /// FOR SELECT
    Select,
    /// FOR INSERT
    Insert,
    /// FOR UPDATE
    Update,
    /// FOR DELETE
    Delete,
}

/// CREATE POLICY. Without FOR it is for ALL, without TO for PUBLIC, which then are no roles.
#[derive(Drop)]
pub struct PolicyText {
    /// The policy's name.
    pub name: Text,
    /// The table that it is of.
    pub table: TableName,
    /// Whether it is AS RESTRICTIVE; else it is permissive.
    pub restrictive: bool,
    /// What it is for.
    pub command: Command,
    /// The names behind TO.
    pub roles: List<Text>,
    /// The condition behind USING.
    pub using: Option<Expr>,
    /// The condition behind WITH CHECK.
    pub check: Option<Expr>,
}

/// A statement of a catalogue, as it is written.
#[derive(Drop)]
pub enum Statement {
    /// CREATE TABLE
    Table {
        /// The table that is made.
        name: TableName,
        /// Its columns and key clauses, in their order.
        items: List<Item>,
    },
    /// CREATE ROLE
    Role {
        /// The role that is made.
        name: Text,
        /// The words behind the name, in their order.
        logins: List<Login>,
    },
    /// GRANT SELECT; no columns mean the whole table.
    Grant {
        /// The columns that may be read.
        columns: List<Text>,
        /// The tables that the grant is on.
        tables: List<TableName>,
        /// The roles that it is to.
        roles: List<Text>,
    },
    /// GRANT of roles to roles: the roles behind TO become members of those before it.
    Member {
        groups: List<Text>,
        roles: List<Text>,
    },
    /// ALTER TABLE .. ENABLE ROW LEVEL SECURITY
    Secure {
        /// The table that is secured.
        table: TableName,
    },
    /// CREATE POLICY
    Policy(PolicyText),
}
