// What a client asks between the lines of a session.
ghost use Rattle.std.specs.Prelude.{◌≡◌};
ghost use Rattle.cm_dialogue.specs.Asked.{awaits, takes};

/// What is asked of a subdevice.
#[derive(Clone, Copy, Debug, PartialEq, Eq)]
pub enum Question {
    /// The least time from now on at which its command holds `n` samples, or of an output has room for
    /// `n` words, or has ended; or the horizon (as a `poll` of the device file waits).
    Await { n: u32 },
    /// The counts of its buffer and its end (Comedi: `comedi_get_buffer_read_count` and its kin).
    Info,
    /// Up to `n` samples, as a read takes them, in codes.
    Codes { n: u32 },
    /// Up to `n` of the mapped samples, from the one `from` places after the first on, in codes.
    Peek { from: u32, n: u32 },
}

/// A question: its time in nanoseconds, its file, its subdevice, and what is asked.
#[derive(Clone, Copy, Debug, PartialEq, Eq)]
pub struct Asked {
    pub time: u64,
    pub file: u32,
    pub sub: u32,
    pub question: Question,
}

/// An await, and then the codes at the time that it tells: the file, the subdevice, how many samples are
/// awaited from `time` nanoseconds on, and up to how many are read.
#[derive(Clone, Copy, Debug, PartialEq, Eq)]
pub struct Fetch {
    pub time: u64,
    pub file: u32,
    pub sub: u32,
    pub wanted: u32,
    pub n: u32,
}

impl Fetch {
    /// The await.
    pub fn awaits(&self) -> Asked
        ensures { result ≡ awaits self.now }
    {
        self.asked(self.time, Question::Await { n: self.wanted })
    }

    /// The codes, at a time.
    pub fn takes(&self, time: u64) -> Asked
        ensures { result ≡ takes time self.now }
    {
        self.asked(time, Question::Codes { n: self.n })
    }

    // What its file asks of its subdevice at a time.
    fn asked(&self, time: u64, question: Question) -> Asked
        ensures { result ≡ record { time = time; file = self.now.file; sub = self.now.sub; question = question } }
    {
        Asked {
            time,
            file: self.file,
            sub: self.sub,
            question,
        }
    }
}
