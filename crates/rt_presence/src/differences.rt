use rt_json::Json;
use rt_value::{Shared, Text};

/// What a channel shows of itself: its track's number and the tracked tree, which is shared with
/// the presence that answers it.
#[derive(Drop)]
pub struct Meta {
    pub reference: u32,
    pub channel: u32,
    pub tree: Shared<Json>,
}

/// What changes under a key: the meta that joins and the one that leaves.
#[derive(Drop)]
pub struct Diff {
    pub key: Text,
    pub joined: Option<Meta>,
    pub left: Option<Meta>,
}
