use rt_json::Json;
use rt_value::{List, Text};

/// A client's wish to join a channel with one binding, to all changes of the table.
#[derive(Drop)]
pub struct Join {
    /// What is joined, with `realtime:`.
    pub topic: Text,
    /// The topic without its prefix.
    pub channel: Text,
    /// What the client calls the frame.
    pub reference: Text,
}

/// The script of the first path: a slot opens and joins a channel, a row is inserted, the stream is
/// polled.
#[derive(Drop)]
pub struct Script {
    /// The slot that opens.
    pub slot: u8,
    /// What its frame asks for.
    pub join: Join,
    /// The inserted row, a value for each column of the table.
    pub row: List<Json>,
}
