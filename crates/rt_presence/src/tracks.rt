use rt_value::Text;

/// What a channel tracks, but for the tree: on this topic, under this key and with this number.
/// Tracks are in order by topic and key in byte order, by number and by channel.
#[derive(PartialEq, Eq, PartialOrd, Ord, Drop)]
pub struct TrackKey {
    pub topic: Text,
    pub key: Text,
    /// The track's number in the journal.
    pub reference: u32,
    pub channel: u32,
}

/// Where a channel tracks.
#[derive(PartialEq, Eq, PartialOrd, Ord, Drop)]
pub struct Place {
    pub topic: Text,
    pub channel: u32,
}
