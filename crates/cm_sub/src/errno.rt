// The errors with which a call on a subdevice is refused.
ghost use Rattle.std.specs.Prelude.{◌≡◌, ◌++◌, OnOk};
ghost use Rattle.cm_sub.specs.Checks.{number_of, refused_text};

use cm_base::numbers::put_u64;
use cm_base::transfer::NoMemory;

/// Why a call is refused, named as the system names its number (Linux: `errno-base.h`).
#[derive(Clone, Copy, Debug, PartialEq, Eq)]
pub enum Errno {
    /// The subdevice can't do that at all (`EIO`).
    Io,
    /// The command has to be changed first, or it isn't the time for the call (`EAGAIN`).
    Again,
    /// Another file holds the subdevice's lock, or runs its command (`EACCES`).
    Access,
    /// The subdevice is busy or locked (`EBUSY`).
    Busy,
    /// There is no such subdevice (`ENODEV`).
    NoDev,
    /// The file isn't open, or is where it may not be, or an argument is wrong (`EINVAL`).
    Inval,
    /// Samples were lost, or weren't there in time (`EPIPE`).
    Pipe,
}

impl Errno {
    /// The number that a program is shown, as `err NUMBER`.
    pub fn number(&self) -> u32
        ensures { result ≡ number_of self.now }
    {
        match self {
            Errno::Io => 5,
            Errno::Again => 11,
            Errno::Access => 13,
            Errno::Busy => 16,
            Errno::NoDev => 19,
            Errno::Inval => 22,
            Errno::Pipe => 32,
        }
    }
}

/// Appends the answer that refuses a line with Comedi's error number.
pub fn put_refused(text: &mut Vec<u8>, error: Errno) -> Result<(), NoMemory>
    ensures { OnOk result (text.new.items ≡ text.old.items ++ refused_text error) }
{
    text.extend_from_slice(b"err ")?;
    put_u64(text, u64::from(error.number()))?;
    text.extend_from_slice(b"\n")?;
    Ok(())
}
