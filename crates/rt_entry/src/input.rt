use rt_change::Change;
use rt_phx::{Posting, Version};
use rt_value::{Bytes, Claims, List, Shared};

/// What the journal takes.
#[derive(Drop)]
pub enum Input {
    /// A socket opened on a slot, with the claims of its key.
    Opened {
        /// Which slot.
        slot: u32,
        /// The version of its frames.
        version: Version,
        /// The claims of the key that it was opened with.
        claims: Claims,
    },
    /// A text frame of a client.
    Frame {
        /// Which slot sent it.
        slot: u32,
        /// What it sent.
        bytes: Bytes,
    },
    /// The client is gone.
    Gone {
        /// Which slot.
        slot: u32,
    },
    /// A post over HTTP.
    Post {
        /// On which slot, which needn't be open.
        slot: u32,
        /// The claims of its token.
        claims: Claims,
        /// Its messages, in order.
        messages: List<Posting>,
    },
    /// One batch of the stream, as the changes of its records.
    Poll {
        /// The changes, in the order of their records.
        changes: Shared<List<Change>>,
    },
    /// The clock's moment in milliseconds.
    Tick {
        /// The moment, in milliseconds since 1970.
        moment: u64,
    },
    /// The stream has ended.
    Stop,
}

/// A step of the machine.
#[derive(Drop)]
pub enum Step {
    /// An input of a slot goes into the slot's inlet.
    Arrive(Input),
    /// A poll, a stop or a tick goes into the feed or the clock.
    Feed(Input),
    /// The journal takes the first input of a slot's inlet.
    Take { slot: u32 },
    /// The journal takes the first input of the feed.
    TakeFeed,
    /// The journal takes the first input of the clock.
    TakeClock,
    /// The next entry owed to a lane goes into it.
    Send { lane: u32 },
    /// A lane's worker takes an entry from its lane.
    Work { lane: u32 },
    /// A slot's next pending item goes into its outbox.
    Push { slot: u32 },
    /// The first item of an outbox is taken away.
    Pop { slot: u32 },
}

/// The limits of a run: 1 to 16 workers; capacity, lane and inlet from 1 to 4096.
#[derive(Debug, Drop)]
pub struct Settings {
    /// How many workers there are, and so lanes.
    pub workers: u32,
    /// How many messages an outbox holds.
    pub capacity: usize,
    /// How many entries a lane holds.
    pub lane: usize,
    /// How many inputs an inlet, the feed and the clock hold.
    pub inlet: usize,
    /// How many rows the tables hold.
    pub rows: usize,
    /// How many inputs the journal takes.
    pub inputs: u32,
    /// The bytes above which a record is too large.
    pub max_record: usize,
    /// The secret of tokens.
    pub secret: Bytes,
}
