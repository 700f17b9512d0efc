use rt_value::{Kind, List, Text, Value};

/// What a filter asks of a cell and its values.
#[derive(Clone, Copy, Debug, Drop, PartialEq, Eq)]
pub enum Op {
    Eq,
    Neq,
    Lt,
    Lte,
    Gt,
    Gte,
    /// Equal to one of the values; written `in`.
    OneOf,
}

/// A filter as it is written, `COLUMN=OP.VALUE`. All operators but `OneOf` have one value.
#[derive(Debug, Drop)]
pub struct Filter {
    pub column: Text,
    pub op: Op,
    pub values: List<Text>,
}

/// A filter on the cells of a table: the column's number, and values of its kind.
#[derive(Debug, Drop)]
pub struct Test {
    pub column: u32,
    pub op: Op,
    pub values: List<Value>,
}

/// A column of a table, and whether a role may SELECT it.
#[derive(Debug, Drop)]
pub struct Shown {
    pub name: Text,
    pub kind: Kind,
    pub selectable: bool,
}
