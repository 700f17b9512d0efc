use crate::Test;
use rt_value::{Claims, List, Shared, Text};

/// The events that a binding asks for.
#[derive(Clone, Copy, Debug, Drop, PartialEq, Eq)]
pub enum Wanted {
    All,
    Insert,
    Update,
    Delete,
}

/// A binding of a joined channel, with the claims that the channel has. No table means every table of
/// the schema.
#[derive(Debug, Drop)]
pub struct Subscription {
    pub id: u64,
    /// The journal number of the channel's join.
    pub channel: u32,
    pub slot: u32,
    pub wanted: Wanted,
    pub schema: Text,
    pub table: Option<u32>,
    /// All of them have to pass.
    pub tests: List<Test>,
    pub role: u32,
    pub claims: Shared<Claims>,
}
