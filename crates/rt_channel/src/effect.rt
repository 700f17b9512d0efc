use rt_json::Json;
use rt_phx::{EndName, Message};
use rt_registry::Binding;
use rt_value::{Claims, List, Shared, Text};

/// A join that the socket has nothing against. Its role, its rights and its bindings are judged by
/// who has the catalogue and the tables.
#[derive(Drop)]
pub struct Wish {
    /// What is to be joined, with `realtime:`.
    pub topic: Text,
    /// The frame's own join_ref.
    pub join_ref: Json,
    /// The frame's ref.
    pub reference: Json,
    /// The claims that the channel is to have.
    pub claims: Shared<Claims>,
    /// The bindings that are asked for.
    pub bindings: List<Binding>,
    /// Whether a broadcast is to be acknowledged.
    pub ack: bool,
    /// Whether a broadcast is to come back to the channel that sent it.
    pub own: bool,
    /// Whether presence is asked for.
    pub presence: bool,
    /// The presence key.
    pub key: Text,
    /// Whether the socket has as many channels on other topics as it may have.
    pub full: bool,
}

/// What a frame, a tick or an end of a socket asks for, one effect after another.
#[derive(Drop)]
pub enum Effect {
    /// The socket is told a message.
    Say(Message),
    /// A channel is to be joined, or its join to be refused by a reply.
    Join(Wish),
    /// The channel of a topic is to have new claims, or else to be told why not and to close.
    Renew {
        /// The channel's topic.
        topic: Text,
        /// The claims from here on.
        claims: Shared<Claims>,
    },
    /// The channel of a topic departs.
    Leave {
        /// The channel's topic.
        topic: Text,
    },
    /// The channel of a topic is told that it closes, and departs.
    Close {
        /// The channel's topic.
        topic: Text,
    },
    /// The channel of a topic sends a payload to the others, and to itself where it asked so.
    Broadcast {
        /// The channel's topic.
        topic: Text,
        /// What they are told.
        payload: Json,
    },
    /// The channel of a topic tracks a value, in the place of what it tracked.
    Track {
        /// The channel's topic.
        topic: Text,
        /// The value that is tracked.
        tree: Json,
    },
    /// The channel of a topic tracks nothing from here on.
    Untrack {
        /// The channel's topic.
        topic: Text,
    },
    /// The socket is shut, for a reason. Its channels have left before.
    End(EndName),
}
