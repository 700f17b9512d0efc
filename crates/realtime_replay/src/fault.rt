use rt_cluster_script::ClusterFault;
use rt_form::FormFault;
use rt_io::{ReadAllFault, WriteFault};
use std::alloc::AllocError;
use thiserror::Error;

/// What ends a run.
#[derive(Clone, Copy, Debug, Error)]
pub enum RunFault {
    #[error("out of memory")]
    NoMemory,
    /// A line of the script is refused.
    #[error("line {line}: form")]
    Refused { line: u64 },
    /// A source failed.
    #[error("read fault")]
    ReadFault,
    /// A source has more bytes than are read.
    #[error("too long")]
    TooLong,
    /// The catalogue or the script isn't of the form that is built.
    #[error("not built")]
    NotBuilt,
    /// The output failed.
    #[error("write fault")]
    WriteFault,
}

impl From<AllocError> for RunFault {
    ghost use Rattle.std.specs.Prelude.{◌≡◌};
    ghost use Rattle.realtime_replay.specs.declared.fault.RunFault.TheVariants.{NoMemory};

    ghost from_gives = { λ _ fault. fault ≡ NoMemory };

    fn from(_: AllocError) -> RunFault {
        RunFault::NoMemory
    }
}

impl From<FormFault> for RunFault {
    ghost use Rattle.std.specs.Prelude.{◌≡◌};
    ghost use Rattle.realtime_replay.specs.Faults.{of_form};

    ghost from_gives = { λ form fault. fault ≡ of_form form };

    fn from(fault: FormFault) -> RunFault {
        match fault {
            FormFault::NoMemory => RunFault::NoMemory,
            FormFault::NotBuilt => RunFault::NotBuilt,
        }
    }
}

impl From<ClusterFault> for RunFault {
    ghost use Rattle.std.specs.Prelude.{◌≡◌};
    ghost use Rattle.realtime_replay.specs.Faults.{of_nodes};

    ghost from_gives = { λ script fault. fault ≡ of_nodes script };

    fn from(fault: ClusterFault) -> RunFault {
        match fault {
            ClusterFault::NoMemory => RunFault::NoMemory,
            ClusterFault::Refused { line } => RunFault::Refused { line },
        }
    }
}

impl From<ReadAllFault> for RunFault {
    ghost use Rattle.std.specs.Prelude.{◌≡◌};
    ghost use Rattle.realtime_replay.specs.Faults.{of_reading};

    ghost from_gives = { λ reading fault. fault ≡ of_reading reading };

    fn from(fault: ReadAllFault) -> RunFault {
        match fault {
            ReadAllFault::NoMemory => RunFault::NoMemory,
            ReadAllFault::ReadFault => RunFault::ReadFault,
            ReadAllFault::TooLong { .. } => RunFault::TooLong,
        }
    }
}

impl From<WriteFault> for RunFault {
    ghost use Rattle.std.specs.Prelude.{◌≡◌};
    ghost use Rattle.realtime_replay.specs.declared.fault.RunFault.TheVariants as fault;

    ghost from_gives = { λ _ e. e ≡ fault.WriteFault };

    fn from(_: WriteFault) -> RunFault {
        RunFault::WriteFault
    }
}
