// What the lines of a session ask.
ghost use Rattle.std.specs.Prelude.{◌≡◌, IfOk};

use cm_base::lists::Nums;
use cm_cmd::command::Cmd;
use std::alloc::{AllocError, Global};
use std::marker::Model;

/// A command in a box, so that a line of a session is small. Contracts see the command.
#[derive(Drop)]
pub struct BoxedCmd {
    cmd: Box<Cmd>,
}

impl Model for BoxedCmd {
    ghost use Rattle.cm_cmd.specs.Command.{CmdText};

    ghost Value = { CmdText };

    ghost view = { λ boxed. boxed.cmd.value };
}

impl BoxedCmd {
    /// Puts a command into a box.
    pub fn new(alloc: Global, cmd: Cmd) -> Result<BoxedCmd, AllocError>
        ensures { IfOk result (λ boxed. boxed ≡ cmd) }
    {
        Ok(BoxedCmd {
            cmd: Box::new(alloc, cmd)?,
        })
    }

    /// The command.
    pub fn cmd(&self) -> &Cmd
        ensures { result.now ≡ self.now }
    {
        &self.cmd
    }
}

/// What a line of a session asks. `sub` is the number of a subdevice, and an entry is a channel and a
/// range, packed as by `entry::pack`.
#[derive(Drop)]
pub enum Op {
    /// Opens the file (Comedi: `comedi_open`).
    OpenFile,
    /// Closes the file, which gives up its locks and its commands (Comedi: `comedi_close`).
    CloseFile,
    /// Gives the file the lock of a subdevice (Comedi: `comedi_lock`).
    Lock { sub: u32 },
    /// Gives up the lock of a subdevice (Comedi: `comedi_unlock`).
    Unlock { sub: u32 },
    /// Starts a command (Comedi: `comedi_command`).
    Cmd { cmd: BoxedCmd },
    /// Ends the command, and drops what its buffer holds (Comedi: `comedi_cancel`).
    Cancel { sub: u32 },
    /// Reads up to `n` samples (as `read` of the device file).
    Read { sub: u32, n: u32 },
    /// Maps up to `n` more samples (Comedi: `comedi_get_buffer_contents`).
    Map { sub: u32, n: u32 },
    /// Looks at the mapped sample `i`, counted from the first one.
    Look { sub: u32, i: u32 },
    /// Releases `k` mapped samples (Comedi: `comedi_mark_buffer_read`).
    Release { sub: u32, k: u32 },
    /// How many samples the buffer holds (Comedi: `comedi_get_buffer_contents`).
    Contents { sub: u32 },
    /// Writes samples and marks them (as `write` of the device file).
    Write { sub: u32, values: Nums },
    /// Writes samples into the mapped buffer.
    Fill { sub: u32, values: Nums },
    /// Marks `k` samples as written (Comedi: `comedi_mark_buffer_written`).
    Mark { sub: u32, k: u32 },
    /// Reads a channel `n` times (Comedi: `INSN_READ`).
    InsnRead { sub: u32, entry: u32, n: u32 },
    /// Writes values to an output (Comedi: `INSN_WRITE`).
    InsnWrite { sub: u32, entry: u32, values: Nums },
    /// Puts the bits in the mask to the digital outputs, and reads all lines (Comedi: `INSN_BITS`).
    InsnBits { sub: u32, mask: u32, bits: u32 },
    /// Makes a digital channel an input by 0, and an output by 1 (Comedi: `INSN_CONFIG`).
    InsnConfig { sub: u32, entry: u32, value: u32 },
    /// The time of day (Comedi: `INSN_GTOD`).
    InsnGtod { sub: u32 },
    /// Gives the command with this start argument its internal trigger (Comedi: `INSN_INTTRIG`).
    InsnIntTrig { sub: u32, num: u32 },
}

/// A line of a session: its time in nanoseconds, its file, and what it asks.
#[derive(Drop)]
pub struct SessionLine {
    pub time: u64,
    pub file: u32,
    pub op: Op,
}
