// Why a dialogue is cut short, and why it ends.
ghost use Rattle.std.specs.Prelude.{◌≡◌};
ghost use Rattle.cm_dialogue.specs.Stops.{heard_stop, read_stop};
ghost use Rattle.cm_dialogue.specs.declared.stop.ServeStop.TheVariants as serves;
ghost use Rattle.cm_dialogue.specs.declared.stop.TalkStop.TheVariants as stops;

use cm_base::faults::{ReadStop, Refused};
use cm_base::transfer::{NoMemory, ReadError, WriteFault};
use std::alloc::AllocError;

/// Why a dialogue was cut short.
#[derive(Clone, Copy, Debug, PartialEq, Eq)]
pub enum TalkStop {
    NoMemory,
    ReadFault,
    WriteFault,
    /// A line, or the part before the session, has more than a mebibyte.
    TooLong,
}

impl From<NoMemory> for TalkStop {
    ghost from_gives = { λ _ e. e ≡ stops.NoMemory };

    fn from(_: NoMemory) -> TalkStop {
        TalkStop::NoMemory
    }
}

impl From<AllocError> for TalkStop {
    ghost from_gives = { λ _ e. e ≡ stops.NoMemory };

    fn from(_: AllocError) -> TalkStop {
        TalkStop::NoMemory
    }
}

impl From<WriteFault> for TalkStop {
    ghost from_gives = { λ _ e. e ≡ stops.WriteFault };

    fn from(_: WriteFault) -> TalkStop {
        TalkStop::WriteFault
    }
}

impl From<ReadError> for TalkStop {
    ghost from_gives = { λ stop e. e ≡ heard_stop stop };

    fn from(stop: ReadError) -> TalkStop {
        match stop {
            ReadError::NoMemory => TalkStop::NoMemory,
            ReadError::ReadFault => TalkStop::ReadFault,
            ReadError::TooLong => TalkStop::TooLong,
        }
    }
}

/// Why a whole dialogue isn't held to the end of its input.
#[derive(Clone, Copy, Debug, PartialEq, Eq)]
pub enum ServeStop {
    /// It was cut short.
    Cut(TalkStop),
    /// The board or the signals are refused, which is reported to the client.
    Refused(Refused),
}

impl From<ReadStop> for ServeStop {
    ghost from_gives = { λ stop e. e ≡ read_stop stop };

    fn from(stop: ReadStop) -> ServeStop {
        match stop {
            ReadStop::NoMemory => ServeStop::Cut(TalkStop::NoMemory),
            ReadStop::Refused(refused) => ServeStop::Refused(refused),
        }
    }
}

impl From<TalkStop> for ServeStop {
    ghost from_gives = { λ stop e. e ≡ serves.Cut stop };

    fn from(stop: TalkStop) -> ServeStop {
        ServeStop::Cut(stop)
    }
}
