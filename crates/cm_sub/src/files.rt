// The files of one thread: which are open, and which of them has each subdevice.
ghost use Rattle.std.specs.Prelude.{◌≡◌, map};
ghost use Rattle.cm_sub.specs.Claims.{claim_without};

use crate::claim::Claim;
use crate::errno::Errno;
use std::marker::Model;

// How many files there can be, and how many subdevices.
const FILES: usize = 16;

const SUBS: usize = 16;

/// Decides between files which of them may use a subdevice (Comedi: the checks of `comedi_fops.c`).
/// There are 16 files, by their numbers, and at most 16 subdevices. No call takes memory, and a call
/// that is refused changes nothing.
#[derive(Drop)]
pub struct Files {
    opened: [bool; FILES],
    claims: [Claim; SUBS],
    subs: u32,
}

impl Model for Files {
    ghost use Rattle.cm_sub.specs.Files.{FilesText};

    ghost Value = { FilesText };

    ghost use Rattle.cm_sub.specs.FilesView.{files_text, IsSoundFiles};

    ghost view = { files_text };

    ghost invariant = { IsSoundFiles };
}

impl Files {
    ghost use Rattle.std.specs.Prelude.{◌≡◌, ◌≤◌, ◌<◌, ◌++◌, Some, None, true, is_some, length, IfOk, OnOk, OnErr};
    ghost use Rattle.std.specs.Result.{result_err};
    ghost use Rattle.cm_sub.specs.Checks.{first_refusal};
    ghost use Rattle.cm_sub.specs.Claims.{cancel_checks, lock_checks, unlock_checks, use_checks};
    ghost use Rattle.cm_sub.specs.Files.{IsFiles, claim_at, close_checks, closed, is_open, no_files, open_checks, opened, reach_checks, with_claim, with_holder, with_runner};

    /// The files of a board with so many subdevices. None is open, and nobody has a subdevice.
    pub fn new(subs: u32) -> Files
        requires { subs ≤ 16 }
        ensures { result ≡ no_files subs }
    {
        let nobody = Claim {
            holder: None,
            runner: None,
        };
        Files {
            opened: [false; FILES],
            claims: [nobody; SUBS],
            subs,
        }
    }

    /// Whether a file is open, which is all that a call without a subdevice needs.
    pub fn is_open(&self, f: u32) -> bool
        ensures value { result ≡ is_open self.now f }
        ensures small { result ≡ true → f < 16 }
        ensures files { IsFiles self.now }
    {
        match self.opened.get(f as usize) {
            Some(open) => *open,
            None => false,
        }
    }

    /// Opens a file. Refused with Inval (`EINVAL`) where there is no such file or it is open.
    pub fn open_file(&mut self, f: u32) -> Result<(), Errno>
        ensures refusal { result_err result ≡ first_refusal (open_checks f self.old) }
        ensures ok { OnOk result (self.new ≡ opened f self.old) }
        ensures err { OnErr result (self.new ≡ self.old) }
    {
        if f >= FILES as u32 || self.is_open(f) {
            return Err(Errno::Inval);
        }
        self.opened[f as usize] = true;
        Ok(())
    }

    /// Closes a file, which gives up its locks and its commands (Comedi: `comedi_close`).
    /// Refused with Inval (`EINVAL`) where it isn't open.
    pub fn close_file(&mut self, f: u32) -> Result<(), Errno>
        ensures refusal { result_err result ≡ first_refusal (close_checks f self.old) }
        ensures ok { OnOk result (self.new ≡ closed f self.old) }
        ensures err { OnErr result (self.new ≡ self.old) }
    {
        if !self.is_open(f) {
            return Err(Errno::Inval);
        }
        self.close(f);
        Ok(())
    }

    /// Whether a file is open and a subdevice is there, which each call on a subdevice asks first.
    /// Refused with Inval (`EINVAL`) where the file isn't open, and then with NoDev (`ENODEV`) where
    /// there is no such subdevice.
    pub fn check(&self, f: u32, sub: u32) -> Result<(), Errno>
        ensures { result_err result ≡ first_refusal (reach_checks f sub self.now) }
    {
        if !self.is_open(f) {
            return Err(Errno::Inval);
        }
        if sub >= self.subs {
            return Err(Errno::NoDev);
        }
        Ok(())
    }

    /// Gives a file the lock of a subdevice, so that no other may use it (Comedi: `COMEDI_LOCK`).
    /// Refused with Busy (`EBUSY`) where the subdevice is busy or locked, by this file too.
    pub fn lock(&mut self, f: u32, sub: u32) -> Result<(), Errno>
        ensures refusal { result_err result ≡ first_refusal (reach_checks f sub self.old ++ lock_checks (claim_at self.old sub)) }
        ensures ok { OnOk result (self.new ≡ with_holder (Some f) sub self.old) }
        ensures err { OnErr result (self.new ≡ self.old) }
    {
        self.check(f, sub)?;
        self.claim(sub).may_lock()?;
        self.set_holder(sub, Some(f));
        Ok(())
    }

    /// Gives up the lock of a subdevice. Without a lock there is nothing to do (Comedi:
    /// `COMEDI_UNLOCK`). Refused with Busy (`EBUSY`) where the subdevice is busy, and then with
    /// Access (`EACCES`) where another file holds the lock.
    pub fn unlock(&mut self, f: u32, sub: u32) -> Result<(), Errno>
        ensures refusal { result_err result ≡ first_refusal (reach_checks f sub self.old ++ unlock_checks f (claim_at self.old sub)) }
        ensures ok { OnOk result (self.new ≡ with_holder None sub self.old) }
        ensures err { OnErr result (self.new ≡ self.old) }
    {
        self.check(f, sub)?;
        self.claim(sub).may_unlock(f)?;
        self.set_holder(sub, None);
        Ok(())
    }

    /// Whether a file may use a subdevice, as for an instruction (Comedi: `COMEDI_INSN`).
    /// Refused with Access (`EACCES`) where another file holds the lock, and then with Busy
    /// (`EBUSY`) where the subdevice is busy, with this file too.
    pub fn may_use(&self, f: u32, sub: u32) -> Result<(), Errno>
        ensures { result_err result ≡ first_refusal (reach_checks f sub self.now ++ use_checks f (claim_at self.now sub)) }
    {
        self.check(f, sub)?;
        self.claim(sub).may_use(f)
    }

    /// Makes a subdevice busy with a file whose command starts (Comedi: `COMEDI_CMD`).
    /// Refused as `may_use` is.
    pub fn begin(&mut self, f: u32, sub: u32) -> Result<(), Errno>
        ensures refusal { result_err result ≡ first_refusal (reach_checks f sub self.old ++ use_checks f (claim_at self.old sub)) }
        ensures ok { OnOk result (self.new ≡ with_runner (Some f) sub self.old) }
        ensures err { OnErr result (self.new ≡ self.old) }
    {
        self.may_use(f, sub)?;
        self.set_runner(sub, Some(f));
        Ok(())
    }

    /// Makes a subdevice idle before its command has ended, and reports whether it was busy
    /// (Comedi: `COMEDI_CANCEL`). Refused with Access (`EACCES`) where another file holds the lock,
    /// and then with Busy (`EBUSY`) where the subdevice is busy with another file.
    pub fn cancel(&mut self, f: u32, sub: u32) -> Result<bool, Errno>
        ensures refusal { result_err result ≡ first_refusal (reach_checks f sub self.old ++ cancel_checks f (claim_at self.old sub)) }
        ensures was_busy { IfOk result (λ busy. busy ≡ is_some (claim_at self.old sub).runner) }
        ensures ok { OnOk result (self.new ≡ with_runner None sub self.old) }
        ensures err { OnErr result (self.new ≡ self.old) }
    {
        self.check(f, sub)?;
        let claim = self.claim(sub);
        claim.may_cancel(f)?;
        self.finish(sub);
        Ok(claim.runner.is_some())
    }

    /// Makes a subdevice idle whose command has ended. Its lock stays (Comedi:
    /// `do_become_nonbusy`).
    pub fn finish(&mut self, sub: u32)
        requires { sub < length self.old.claims }
        ensures { self.new ≡ with_runner None sub self.old }
    {
        self.set_runner(sub, None);
    }

    /// The file with which a subdevice is busy. None where it is idle.
    pub fn runner(&self, sub: u32) -> Option<u32>
        requires { sub < length self.now.claims }
        ensures { result ≡ (claim_at self.now sub).runner }
    {
        self.claim(sub).runner
    }

    /// The file that holds a subdevice's lock. None where it isn't locked.
    pub fn holder(&self, sub: u32) -> Option<u32>
        requires { sub < length self.now.claims }
        ensures { result ≡ (claim_at self.now sub).holder }
    {
        self.claim(sub).holder
    }

    // Closes a file.
    fn close(&mut self, f: u32)
        requires { f < 16 }
        ensures { self.new ≡ closed f self.old }
    {
        self.opened[f as usize] = false;
        give_up(f, &mut self.claims);
    }

    /// Who has a subdevice: the file with its lock, and the file whose command runs.
    pub fn claim(&self, sub: u32) -> Claim
        requires { sub < length self.now.claims }
        ensures { result ≡ claim_at self.now sub }
    {
        self.claims[sub as usize]
    }

    // Changes who has a subdevice.
    fn set_claim(&mut self, sub: u32, claim: Claim)
        requires { sub < length self.old.claims }
        ensures { self.new ≡ with_claim claim sub self.old }
    {
        self.claims[sub as usize] = claim;
    }

    // Changes which file holds a subdevice's lock.
    fn set_holder(&mut self, sub: u32, holder: Option<u32>)
        requires { sub < length self.old.claims }
        ensures { self.new ≡ with_holder holder sub self.old }
    {
        let runner = self.claim(sub).runner;
        self.set_claim(sub, Claim { holder, runner });
    }

    /// Makes a subdevice busy with a file, or idle, without a check.
    pub fn set_runner(&mut self, sub: u32, runner: Option<u32>)
        requires { sub < length self.old.claims }
        ensures { self.new ≡ with_runner runner sub self.old }
    {
        let holder = self.claim(sub).holder;
        self.set_claim(sub, Claim { holder, runner });
    }
}

// Takes a file out of all claims.
fn give_up(f: u32, claims: &mut [Claim; SUBS])
    ensures { claims.new ≡ map (claim_without f) claims.old }
{
    for i in 0..SUBS {
        claims[i] = claims[i].without(f);
    }
}
