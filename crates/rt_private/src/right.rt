/// The table `realtime.messages`, and the numbers of its columns `topic`, `extension` and `action`.
/// A catalogue that has it has private channels alone.
#[derive(Clone, Copy, Debug, Drop, PartialEq, Eq)]
pub struct Messages {
    /// The table's number.
    pub table: u32,
    /// The number of its column `topic`.
    pub topic: u32,
    /// The number of its column `extension`.
    pub extension: u32,
    /// The number of its column `action`.
    pub action: u32,
}

/// Whether something is permitted on a topic, or the first reason why not.
#[derive(Clone, Copy, Debug, Drop, PartialEq, Eq)]
pub enum Right {
    /// It is permitted.
    Yes,
    /// The role may not SELECT one of the three columns.
    NoPrivilege,
    /// No policy for reading applies to the role.
    NoPolicy,
    /// No permissive policy is true.
    NonePermits,
    /// The number of the first restrictive policy, by name, that isn't true.
    Restrictive(u32),
}

/// The four rights of a claim on a topic.
#[derive(Clone, Copy, Debug, Drop, PartialEq, Eq)]
pub struct Rights {
    /// To join the channel, and hear its broadcasts.
    pub join: Right,
    /// To be told who is present.
    pub presence: Right,
    /// To send broadcasts.
    pub send: Right,
    /// To be present.
    pub track: Right,
}
