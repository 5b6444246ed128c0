// The lines of locks.
ghost use Rattle.std.specs.Prelude.{OnOk};
ghost use Rattle.cm_replay.specs.Forms.{form};
ghost use Rattle.cm_replay.specs.Replies.{IsReached, Replies, checked, here_at};
ghost use Rattle.cm_replay.specs.State.{Device};
ghost use Rattle.cm_session.specs.declared.op.Op.TheVariants as ops;

use crate::at::At;
use crate::text::put_fine;
use cm_base::transfer::NoMemory;
use cm_sub::errno::put_refused;
use cm_sub::files::Files;

/// `lock`: gives the subdevice's lock to the file. Refused as `Files::lock` is.
pub(crate) fn lock(at: &At<'_>, files: &mut Files, text: &mut Vec<u8>) -> Result<(), NoMemory>
    requires { IsReached at.now files.old }
    ensures { (device : Device) → OnOk result (Replies (checked (form (ops.Lock at.now.index) (here_at at.now files.old device)) (here_at at.now files.old device)) files.new device text.old.items text.new.items) }
{
    match files.lock(at.file, at.index) {
        Err(error) => put_refused(text, error),
        Ok(()) => put_fine(text),
    }
}

/// `unlock`: takes the subdevice's lock from the file. Refused as `Files::unlock` is.
pub(crate) fn unlock(at: &At<'_>, files: &mut Files, text: &mut Vec<u8>) -> Result<(), NoMemory>
    requires { IsReached at.now files.old }
    ensures { (device : Device) → OnOk result (Replies (checked (form (ops.Unlock at.now.index) (here_at at.now files.old device)) (here_at at.now files.old device)) files.new device text.old.items text.new.items) }
{
    match files.unlock(at.file, at.index) {
        Err(error) => put_refused(text, error),
        Ok(()) => put_fine(text),
    }
}
