// Why a job is not done.
ghost use Rattle.std.specs.Prelude.{◌≡◌};
ghost use Rattle.cm_cli.specs.Stopped.{stop_of, text_stop};
ghost use Rattle.cm_cli.specs.declared.stop.Stop.TheVariants as stops;

use cm_base::faults::{ReadStop, Refused};
use cm_base::transfer::{NoMemory, TextStop, WriteFault};

/// Why a job is not done.
#[derive(Clone, Copy, Debug, PartialEq, Eq)]
pub enum Stop {
    NoMemory,
    Refused(Refused),
    ReadFault,
    WriteFault,
}

impl From<NoMemory> for Stop {
    ghost from_gives = { λ _ stop. stop ≡ stops.NoMemory };

    fn from(_: NoMemory) -> Stop {
        Stop::NoMemory
    }
}

impl From<WriteFault> for Stop {
    ghost from_gives = { λ _ stop. stop ≡ stops.WriteFault };

    fn from(_: WriteFault) -> Stop {
        Stop::WriteFault
    }
}

impl From<ReadStop> for Stop {
    ghost from_gives = { λ read stop. stop ≡ stop_of read };

    fn from(stop: ReadStop) -> Stop {
        match stop {
            ReadStop::NoMemory => Stop::NoMemory,
            ReadStop::Refused(refused) => Stop::Refused(refused),
        }
    }
}

impl From<TextStop> for Stop {
    ghost from_gives = { λ text stop. stop ≡ text_stop text };

    fn from(stop: TextStop) -> Stop {
        match stop {
            TextStop::NoMemory => Stop::NoMemory,
            TextStop::WriteFault => Stop::WriteFault,
        }
    }
}
