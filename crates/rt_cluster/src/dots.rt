use rt_json::Json;
use rt_value::{List, Text};

/// The name of a track: the node that made it, and which of that node's tracks it is, from 1 on.
/// Dots are in order by node and number.
#[derive(Clone, Copy, Debug, PartialEq, Eq, PartialOrd, Ord, Drop)]
pub struct Dot {
    pub node: u32,
    pub number: u32,
}

/// What a track shows: a tree under a key of a topic.
#[derive(Drop)]
pub struct Mark {
    pub dot: Dot,
    pub topic: Text,
    pub key: Text,
    pub tree: Json,
}

/// What a node tells others: marks, and the dots of all tracks that the delta knows of. A track
/// whose dot is in `seen` and whose mark isn't in `live` is replaced or removed.
#[derive(Drop)]
pub struct Delta {
    pub live: List<Mark>,
    pub seen: List<Dot>,
}
