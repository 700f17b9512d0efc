use crate::Judge;
use rt_value::{Kind, Text};

/// The kinds that compare with each other.
#[derive(Clone, Copy, Debug, Drop, PartialEq, Eq)]
pub enum Group {
    Whole,
    Text,
    Truth,
    Uuid,
    Moment,
}

/// What a part of an expression means.
#[derive(Drop)]
pub enum Meaning {
    /// It names a table or a column that isn't there.
    Unnamed,
    Mistyped,
    /// A text literal, which takes the group of the other side.
    OpenText(Text),
    /// Null, which takes the group of the other side.
    OpenNull,
    Typed(Group, Judge),
}

/// What the place of a part asks of it.
#[derive(Clone, Copy)]
pub enum Wanted {
    /// To be a truth value by itself.
    Truth,
    /// To be of a group, or to be read in it.
    Of(Group),
}

/// A column that is named, by its number, and whether it is the inner table's.
#[derive(Clone, Copy)]
pub struct Found {
    pub inner: bool,
    pub column: u32,
    pub kind: Kind,
}
