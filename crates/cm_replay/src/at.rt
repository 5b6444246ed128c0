// Where a line of a session acts.

use cm_board::board::{Kind, Sub};
use cm_signal::setting::Setting;
use cm_signal::signals::Signals;
use cm_sub::errno::Errno;
use cm_sub::files::Files;

/// Where a line acts: its time in nanoseconds, its file, and its subdevice with the signals and the
/// place on its board.
#[derive(Clone, Copy)]
pub struct At<'a> {
    pub time: u64,
    pub file: u32,
    pub index: u32,
    pub sub: &'a Sub,
    pub signals: &'a Signals,
}

impl<'a> At<'a> {
    ghost use Rattle.std.specs.Prelude.{◌≡◌, ◌<◌, ◌∷◌, [], not, length, if◌then◌else◌, IfOk};
    ghost use Rattle.std.specs.Result.{result_err};
    ghost use Rattle.cm_board.specs.Board.{is_output};
    ghost use Rattle.cm_replay.specs.Replies.{StandsAt, place_checks};
    ghost use Rattle.cm_sub.specs.Checks.{first_refusal, refuse};
    ghost use Rattle.cm_sub.specs.Claims.{is_other};
    ghost use Rattle.cm_sub.specs.Files.{claim_at};

    /// Where a file acts at a time, on the subdevice of a number. Refused as `Files::check` is, and then
    /// with Io (`EIO`) where the subdevice is unused, or takes no commands where they are asked for.
    pub fn reach(
        setting: &Setting<'a>,
        files: &Files,
        time: u64,
        file: u32,
        index: u32,
        commands: bool,
    ) -> Result<At<'a>, Errno>
        requires { length files.now.claims ≡ length setting.now.board.subs }
        ensures refusal { result_err result ≡ first_refusal (place_checks setting.now files.now file index commands) }
        ensures place { IfOk result (λ at. StandsAt setting.now time file index at) }
    {
        files.check(file, index)?;
        let board = setting.board;
        let sub = &board.subs[index as usize];
        if matches!(sub.kind, Kind::Unused) || (commands && !sub.takes_commands()) {
            return Err(Errno::Io);
        }
        Ok(At {
            time,
            file,
            index,
            sub,
            signals: setting.signals,
        })
    }

    /// What a line is refused that reads from a buffer, or with `out` writes into one: Inval (`EINVAL`)
    /// where the subdevice has the other direction, Access (`EACCES`) where another file runs the
    /// command, and Inval where the line's own test holds.
    pub(crate) fn refuses(&self, files: &Files, out: bool, test: bool) -> Result<(), Errno>
        requires { self.now.index < length files.now.claims }
        ensures { result_err result ≡ first_refusal (refuse Errno.Inval (if out then not (is_output self.now.sub.now.kind) else is_output self.now.sub.now.kind) ∷ refuse Errno.Access (is_other self.now.file (claim_at files.now self.now.index).runner) ∷ refuse Errno.Inval test ∷ []) }
    {
        let sub = self.sub;
        if sub.kind.is_output() != out {
            return Err(Errno::Inval);
        }
        if self.is_foreign(files) {
            return Err(Errno::Access);
        }
        if test {
            return Err(Errno::Inval);
        }
        Ok(())
    }

    /// Whether the subdevice is busy with another file.
    pub fn is_foreign(&self, files: &Files) -> bool
        requires { self.now.index < length files.now.claims }
        ensures { result ≡ is_other self.now.file (claim_at files.now self.now.index).runner }
    {
        match files.runner(self.index) {
            None => false,
            Some(file) => file != self.file,
        }
    }
}
