use rt_json::JsonFault;
use thiserror::Error;

/// Why a frame has no message.
#[derive(Clone, Copy, Debug, Drop, PartialEq, Eq, Error)]
pub enum PhxFault {
    #[error("out of memory")]
    NoMemory,
    /// The frame is too long, or isn't of its version's form.
    #[error("bad frame")]
    BadFrame,
}

impl From<JsonFault> for PhxFault {
    ghost use Rattle.std.specs.Prelude.{◌≡◌};
    ghost use Rattle.rt_phx.specs.Answers.{fault_of};

    ghost from_gives = { λ given fault. fault ≡ fault_of given };

    fn from(given: JsonFault) -> PhxFault {
        match given {
            JsonFault::Bad { at: _ } => PhxFault::BadFrame,
            JsonFault::TooDeep { at: _ } => PhxFault::BadFrame,
            JsonFault::NoMemory => PhxFault::NoMemory,
        }
    }
}
