use rt_json::Json;
use rt_phx::Version;
use rt_value::{Claims, List, Shared, Text};

/// A channel as its socket knows it.
#[derive(Drop)]
pub struct Joined {
    /// What it is joined to, with `realtime:`.
    pub topic: Text,
    /// The ref that its messages carry.
    pub join_ref: Json,
    /// The claims that it has now.
    pub claims: Shared<Claims>,
    /// Whether a broadcast is acknowledged.
    pub ack: bool,
    /// Whether presence is enabled.
    pub presence: bool,
    /// Why a broadcast is denied; none where it may be sent.
    pub send: Option<Text>,
    /// Why a track is denied; none where it may be made.
    pub track: Option<Text>,
}

/// What a socket holds between two inputs, while nothing that it proposed is unanswered.
#[derive(Drop)]
pub struct Held {
    /// The version of its frames.
    pub version: Version,
    /// The claims of the key that it was opened with.
    pub claims: Shared<Claims>,
    /// The moment at which it was last heard.
    pub heard: u64,
    /// Whether every channel is private, or else none.
    pub secured: bool,
    /// Its channels, in the order of their joins, at most one on a topic.
    pub channels: List<Joined>,
}
