//! Laws of the definitions. Each is a function with an empty body.
ghost use Rattle.rt_presence.specs.Calls.{CallsLeave};
ghost use Rattle.rt_presence.specs.Client.{CallClientsAgree};

/// What stands after any list of calls are the tracks that no later call of the same channel on
/// their topic replaced or removed.
pub fn calls_leave()
    ensures { CallsLeave }
{}

/// A client that was told the state of a topic and then the difference that each later call answers
/// there holds the metas of those present, up to order, where the numbers of tracks rise from call
/// to call.
pub fn clients_agree()
    ensures { CallClientsAgree }
{}
