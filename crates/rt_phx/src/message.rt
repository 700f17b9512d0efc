use rt_json::Json;
use rt_value::Text;

/// The two forms of a frame: `V1` is an object, `V2` a list of five.
#[derive(Clone, Copy, Debug, Drop, PartialEq, Eq)]
pub enum Version {
    V1,
    V2,
}

/// A message of a post over HTTP: to the channels of the topic `realtime:` and this one.
#[derive(Drop)]
pub struct Posting {
    /// The topic without `realtime:`.
    pub topic: Text,
    /// The event that the channels are told, which may be empty.
    pub event: Text,
    /// Any tree.
    pub payload: Json,
}

/// A message of a client or of the server. A ref is null, a text or a number.
#[derive(Drop)]
pub struct Message {
    pub join_ref: Json,
    pub reference: Json,
    pub topic: Text,
    pub event: Text,
    pub payload: Json,
}
