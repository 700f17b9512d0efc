use rt_value::Text;

/// What who has the catalogue answers to a join or a renewal that a socket asks for.
#[derive(Drop)]
pub enum Answer {
    /// The channel is joined.
    Accepted {
        /// Whether presence is enabled.
        presence: bool,
        /// Why a broadcast is denied; none where it may be sent.
        send: Option<Text>,
        /// Why a track is denied; none where it may be made.
        track: Option<Text>,
    },
    /// The channel has its new claims.
    Renewed {
        /// Why a broadcast is denied with them; none where it may be sent.
        send: Option<Text>,
        /// Why a track is denied with them; none where it may be made.
        track: Option<Text>,
    },
    /// The join is refused, or the renewal, with which the channel closes.
    Refused,
}
