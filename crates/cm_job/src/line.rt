// What the lines of a run job ask.
ghost use Rattle.std.specs.Prelude.{◌≡◌};
ghost use Rattle.cm_job.specs.Calls as spec;
ghost use Rattle.cm_job.specs.Modes as modes;

use cm_base::lists::Nums;
use cm_expand::call::{Call, sub_of};
use cm_test::test::Accepted;

/// What the board does where the buffer is full.
#[derive(Clone, Copy, Debug, PartialEq, Eq)]
pub enum Mode {
    /// It waits for room.
    Paced,
    /// It loses the sample, and the command ends.
    Free,
}

impl Mode {
    /// Whether the board waits for room.
    pub fn is_paced(self) -> bool
        ensures { result ≡ modes.is_paced self }
    {
        match self {
            Mode::Paced => true,
            Mode::Free => false,
        }
    }
}

/// How the client gets at the samples of the buffer.
#[derive(Clone, Copy, Debug, PartialEq, Eq)]
pub enum Access {
    /// It has them copied (as by `read` of the device file).
    Copy,
    /// It maps them (Comedi: `comedi_map`).
    Map,
}

/// What a line of a run asks: a command that its subdevice accepts, called at `t0` nanoseconds, and
/// what its client does.
#[derive(Drop)]
pub enum RunLine {
    /// Reads what an input's command brings, up to `take` samples where that is given.
    Go {
        mode: Mode,
        access: Access,
        t0: u64,
        take: Option<u64>,
        cmd: Accepted,
    },
    /// Writes these values for an output's command. The board waits for them.
    Drive {
        t0: u64,
        values: Nums,
        cmd: Accepted,
    },
}

impl RunLine {
    /// When the command is called, in nanoseconds.
    pub fn t0(&self) -> u64
        ensures { result ≡ spec.t0_of self.now }
    {
        match self {
            RunLine::Go { t0, .. } => *t0,
            RunLine::Drive { t0, .. } => *t0,
        }
    }

    /// The command.
    pub fn cmd(&self) -> &Accepted
        ensures { result.now ≡ spec.cmd_of self.now }
    {
        match self {
            RunLine::Go { cmd, .. } => cmd,
            RunLine::Drive { cmd, .. } => cmd,
        }
    }

    /// The number of its subdevice.
    pub fn sub(&self) -> u32
        ensures { result ≡ (spec.cmd_of self.now).sub }
    {
        sub_of(self.cmd())
    }
}

impl Call for RunLine {
    ghost call = { spec.call_of };

    fn call_time(&self) -> u64 {
        self.t0()
    }

    fn command(&self) -> &Accepted {
        self.cmd()
    }
}
