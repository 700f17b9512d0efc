use rt_phx::{EndName, Message, Version};
use rt_value::Bytes;

/// What a slot gets of an input: the mark of an opening, a message, or a terminator.
#[derive(Drop)]
pub enum Answer {
    /// The slot is open from here on, in a version of its frames.
    Opened(Version),
    /// The slot is told a message.
    Says(Message),
    /// The slot is shut, for a reason.
    Ended(EndName),
}

/// What a slot's outbox is given: a message as it is spelled, or a terminator.
#[derive(Debug, Drop)]
pub enum Item {
    /// The bytes of one frame.
    Message(Bytes),
    /// The last item of an opening.
    End(EndName),
}
