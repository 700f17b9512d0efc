/// A record that a change shows.
#[derive(Clone, Copy, Debug, Drop, PartialEq, Eq)]
pub enum Side {
    /// The row as it is after the change.
    New,
    /// What identifies the row as it was before.
    Old,
}
