use rt_json::Json;
use rt_phx::{EndName, Message, Version};
use rt_registry::Subscribed;
use rt_value::{Claims, List, Shared, Text};

/// A slot that is open.
#[derive(Drop)]
pub struct Opening {
    /// The version of its frames.
    pub version: Version,
    /// The claims of the key that it was opened with.
    pub claims: Shared<Claims>,
    /// The moment at which the slot was last heard.
    pub heard: u64,
}

/// What a channel is, and may do, by the claims that it has.
#[derive(Drop)]
pub struct Standing {
    /// The number of the claims' role in the catalogue.
    pub role: u32,
    /// The claims.
    pub claims: Shared<Claims>,
    /// Why a broadcast is denied; none where it may be sent.
    pub send: Option<Text>,
    /// Why a track is denied; none where it may be made.
    pub track: Option<Text>,
}

/// An accepted join. A channel is named by its number, the join's in the journal.
#[derive(Drop)]
pub struct Channel {
    /// The join's number in the journal.
    pub number: u32,
    /// The slot that joined.
    pub slot: u32,
    /// What it is joined to, with `realtime:`.
    pub topic: Text,
    /// The join's ref, which its messages carry.
    pub join_ref: Json,
    /// By the claims of the join.
    pub standing: Standing,
    /// The bindings of the join, with what they mean.
    pub bindings: List<Subscribed>,
    /// The id of the first binding. The ids run on from there.
    pub first_id: u64,
    /// Whether a broadcast is acknowledged.
    pub ack: bool,
    /// Whether a broadcast comes back to the channel that sent it.
    pub own: bool,
    /// Whether presence is enabled.
    pub presence: bool,
    /// The presence key.
    pub key: Text,
}

/// A channel that hasn't departed, with the claims that it has now.
#[derive(Drop)]
pub struct Member {
    /// The channel as it was joined.
    pub channel: Shared<Channel>,
    /// By the claims of its last accepted renewal, or of its join.
    pub standing: Standing,
}

/// What a channel tracks on its topic. The reference is the track's number in the journal.
#[derive(Drop)]
pub struct Track {
    /// The number in the journal of the input that tracked.
    pub reference: u32,
    /// The channel's number.
    pub channel: u32,
    /// The topic of the channel.
    pub topic: Text,
    /// The presence key that it stands under.
    pub key: Text,
    /// The value that is tracked.
    pub tree: Json,
}

/// What an input does, one part after another.
#[derive(Drop)]
pub enum Part {
    /// A slot opens.
    Opens {
        /// Which slot.
        slot: u32,
        /// With what.
        opening: Opening,
    },
    /// A slot is shut.
    Ends {
        /// Which slot.
        slot: u32,
        /// For which reason.
        name: EndName,
    },
    /// A slot is told a message.
    Tells {
        /// Which slot.
        slot: u32,
        /// What it is told.
        message: Message,
    },
    /// A channel is joined.
    Joins(Channel),
    /// A channel has new claims from here on.
    Renews {
        /// The channel's number.
        channel: u32,
        /// By its claims from here on.
        standing: Standing,
    },
    /// A channel tracks a value, in the place of what it tracked on the topic.
    Tracks(Track),
    /// A channel tracks nothing from here on.
    Untracks {
        /// The channel's number.
        channel: u32,
    },
    /// A channel is no longer joined.
    Departs {
        /// The channel's number.
        channel: u32,
    },
}
