// A command as plain data.
use cm_base::transfer::NoMemory;
use std::alloc::Global;
use std::marker::Model;

/// The sources of a trigger and their argument. Sources are bits of `cm_base::source`, one bit in
/// a command that a subdevice takes. The argument is a time in nanoseconds, a count, a line or the
/// number of an internal trigger, as the source says.
#[derive(Clone, Copy, Debug, PartialEq, Eq)]
pub struct Trig {
    pub src: u32,
    pub arg: u32,
}

/// What a subdevice is asked to do (Comedi: `comedi_cmd`).
#[derive(Drop)]
pub struct Cmd {
    /// The number of the subdevice.
    pub sub: u32,
    /// Comedi's `CMDF_*` bits. Here the two rounding bits (0x30000) and RAWDATA (0x80) count.
    pub flags: u32,
    /// When acquisition starts.
    pub start: Trig,
    /// When a scan begins.
    pub scan_begin: Trig,
    /// When a scan's conversions are made.
    pub convert: Trig,
    /// How many conversions a scan has.
    pub scan_end: Trig,
    /// When acquisition stops.
    pub stop: Trig,
    /// The channel list, each entry packed as by `entry::pack`.
    pub list: Vec<u32>,
}

impl Model for Cmd {
    ghost use Rattle.cm_cmd.specs.Command.{CmdText};

    ghost Value = { CmdText };

    ghost use Rattle.cm_cmd.specs.View.{cmd_text};

    ghost view = { cmd_text };
}

impl Cmd {
    ghost use Rattle.std.specs.Prelude.{◌≡◌, IfOk};

    /// The same command once more.
    pub fn copy(&self, alloc: Global) -> Result<Cmd, NoMemory>
        ensures { IfOk result (λ copied. copied ≡ self.now) }
    {
        let mut list = Vec::new(alloc);
        list.extend_from_slice(&self.list)?;
        Ok(Cmd {
            sub: self.sub,
            flags: self.flags,
            start: self.start,
            scan_begin: self.scan_begin,
            convert: self.convert,
            scan_end: self.scan_end,
            stop: self.stop,
            list,
        })
    }
}
