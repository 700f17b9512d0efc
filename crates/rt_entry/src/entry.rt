use crate::ChannelViews;
use rt_change::Change;
use rt_json::Json;
use rt_phx::{EndName, Said, Version};
use rt_registry::Subscriptions;
use rt_replica::Tables;
use rt_value::{List, Shared, Text};

/// A channel as a batch shows it.
#[derive(Drop)]
pub struct ChannelView {
    /// The channel's number, its join's in the journal.
    pub channel: u32,
    /// The slot that joined it.
    pub slot: u32,
    /// The topic that it is on.
    pub topic: Text,
    /// The join's ref, which its messages carry.
    pub join_ref: Json,
}

/// What the hub hands to a lane. A batch carries no messages: the lane's worker makes them.
#[derive(Drop)]
pub enum Entry {
    /// A poll by its number in the journal: its changes, the tables at its end, the subscriptions
    /// before it by id, and the channels in join order.
    Batch {
        /// The poll's number in the journal.
        number: u32,
        /// The changes, in the order of their records.
        changes: Shared<List<Change>>,
        /// The tables at the poll's end.
        tables: Shared<Tables>,
        /// The subscriptions before the poll, by id.
        subscriptions: Subscriptions,
        /// The channels, in the order of their joins.
        channels: ChannelViews,
    },
    /// A slot is told a message.
    Notice {
        /// Who is told.
        slot: u32,
        /// What is told.
        message: Said,
    },
    /// A slot is open from here on.
    Opened {
        /// Which slot.
        slot: u32,
        /// The version of its frames.
        version: Version,
    },
    /// A slot is shut.
    Ended {
        /// Which slot.
        slot: u32,
        /// For which reason.
        name: EndName,
    },
    /// Nothing follows: the stream has ended.
    Stop,
}
