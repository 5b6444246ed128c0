// Who has a subdevice, and which file may do what with it.
ghost use Rattle.std.specs.Prelude.{◌≡◌};
ghost use Rattle.std.specs.Result.{result_err};
ghost use Rattle.cm_sub.specs.Checks.{first_refusal};
ghost use Rattle.cm_sub.specs.Claims as spec;
ghost use Rattle.cm_sub.specs.Claims.{cancel_checks, claim_without, lock_checks, unlock_checks, use_checks};

use crate::errno::Errno;

/// Who has a subdevice (Comedi: `lock` and `busy` of `struct comedi_subdevice`).
#[derive(Clone, Copy, Debug, PartialEq, Eq)]
pub struct Claim {
    /// The file that holds the lock.
    pub holder: Option<u32>,
    /// The file whose command runs. With one the subdevice is busy.
    pub runner: Option<u32>,
}

impl Claim {
    /// Whether the subdevice may be locked. Refused with Busy (`EBUSY`) where it is busy or locked.
    pub fn may_lock(&self) -> Result<(), Errno>
        ensures { result_err result ≡ first_refusal (lock_checks self.now) }
    {
        if self.runner.is_some() || self.holder.is_some() {
            return Err(Errno::Busy);
        }
        Ok(())
    }

    /// Whether a file may give up the lock, if there is one. Refused with Busy (`EBUSY`) where the
    /// subdevice is busy, and then with Access (`EACCES`) where another file holds the lock.
    pub fn may_unlock(&self, f: u32) -> Result<(), Errno>
        ensures { result_err result ≡ first_refusal (unlock_checks f self.now) }
    {
        if self.runner.is_some() {
            return Err(Errno::Busy);
        }
        if is_other(f, self.holder) {
            return Err(Errno::Access);
        }
        Ok(())
    }

    /// Whether a file may use the subdevice. Refused with Access (`EACCES`) where another file holds
    /// the lock, and then with Busy (`EBUSY`) where the subdevice is busy, with this file too.
    pub fn may_use(&self, f: u32) -> Result<(), Errno>
        ensures { result_err result ≡ first_refusal (use_checks f self.now) }
    {
        if is_other(f, self.holder) {
            return Err(Errno::Access);
        }
        if self.runner.is_some() {
            return Err(Errno::Busy);
        }
        Ok(())
    }

    /// Whether a file may cancel a command, if there is one. Refused with Access (`EACCES`) where
    /// another file holds the lock, and then with Busy (`EBUSY`) where the subdevice is busy with
    /// another file.
    pub fn may_cancel(&self, f: u32) -> Result<(), Errno>
        ensures { result_err result ≡ first_refusal (cancel_checks f self.now) }
    {
        if is_other(f, self.holder) {
            return Err(Errno::Access);
        }
        if is_other(f, self.runner) {
            return Err(Errno::Busy);
        }
        Ok(())
    }

    /// What is left when a file gives up its lock and its command.
    pub fn without(&self, f: u32) -> Claim
        ensures { result ≡ claim_without f self.now }
    {
        Claim {
            holder: other_than(f, self.holder),
            runner: other_than(f, self.runner),
        }
    }
}

// Whether there is a file and it is another one.
fn is_other(f: u32, file: Option<u32>) -> bool
    ensures { result ≡ spec.is_other f file }
{
    match file {
        None => false,
        Some(g) => g != f,
    }
}

// The same file where it is another one, and none otherwise.
fn other_than(f: u32, file: Option<u32>) -> Option<u32>
    ensures { result ≡ spec.other_than f file }
{
    if is_other(f, file) { file } else { None }
}
