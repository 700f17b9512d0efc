ghost use Rattle.std.specs.Prelude.{◌≡◌};
ghost use Rattle.rt_private.specs.Asked.{use_of};
ghost use Rattle.rt_private.specs.Rights.{extension_of, action_of};

/// What is asked of a topic.
#[derive(Clone, Copy)]
pub enum Asked {
    /// To join the channel, and hear its broadcasts.
    Join,
    /// To be told who is present.
    Presence,
    /// To send broadcasts.
    Send,
    /// To be present.
    Track,
}

/// The word for what is used.
pub fn extension(asked: Asked) -> &'static str
    ensures { result.now ≡ extension_of (use_of asked) }
{
    match asked {
        Asked::Join | Asked::Send => "broadcast",
        Asked::Presence | Asked::Track => "presence",
    }
}

/// The word for how it is used.
pub fn action(asked: Asked) -> &'static str
    ensures { result.now ≡ action_of (use_of asked) }
{
    match asked {
        Asked::Join | Asked::Presence => "read",
        Asked::Send | Asked::Track => "write",
    }
}
