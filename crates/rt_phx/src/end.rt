/// Why an opening ended.
#[derive(Clone, Copy, Debug, Drop, PartialEq, Eq)]
pub enum EndName {
    /// The client is gone.
    Gone,
    BadFrame,
    /// Nothing was heard for 60 seconds.
    Idle,
    /// The slot was opened anew.
    Replaced,
    /// The server stopped.
    Stopped,
    /// The slot's own outbox was full.
    OutboxFull,
}
