// What holds of the definitions alone.
ghost use Rattle.cm_replay.specs.Law.{BringingLaw, NothingIsLeft, PrefixLaw, SessionLaw};
ghost use Rattle.cm_replay.specs.Losses.{LossLaw};
ghost use Rattle.cm_replay.specs.PutOut.{PutLaw};
ghost use Rattle.cm_replay.specs.Readback.{ReadbackLaw, SessionReadback, WholeLinesLaw};
ghost use Rattle.cm_replay.specs.Refusals.{ForeignLaw, RefusalLaw, TiedLaw};

/// At every line of a session each command is lawful, what was put out are the client's words, each
/// munged by its place and at the time of its conversion, and the line's answer continues what was
/// read of its subdevice.
pub fn sessions_go_well()
    ensures { SessionLaw }
{}

/// What a client marks as read is a prefix of the command's munged expansion in trigger order. It is
/// the whole where `done` or `dry` is reported, and `overrun k` follows exactly k samples of more.
pub fn what_is_read_is_a_prefix()
    ensures { PrefixLaw }
{}

/// A sample is lost just when its conversion comes and its place isn't there: `overrun k` if a buffer
/// has no room for sample k, `underrun k` if an output has only k words, and `fifo k` if the board's
/// own FIFO is full when conversion k comes.
pub fn losses_come_exactly()
    ensures { LossLaw }
{}

/// All that an output puts out are the first words that its client marked, each munged by its place
/// and at the time of its conversion.
pub fn what_is_put_out_is_a_prefix()
    ensures { PutLaw }
{}

/// The bytes of a read's answer can be read back as its samples, whatever stands after them: each has
/// its place in the channel list and its raw word or its level in micro-units.
pub fn reads_can_be_read_back()
    ensures { ReadbackLaw }
{}

/// In every session of a sound job the samples that are read or looked at are read back from the bytes
/// of the answers: the numbers in them have 32 bits.
pub fn each_read_can_be_read_back()
    ensures { SessionReadback }
{}

/// What is put out by a line's time is written as whole lines, and so is the line's answer. So each
/// answer begins at the start of a line.
pub fn steps_write_whole_lines()
    ensures { WholeLinesLaw }
{}

/// A line that is refused leaves the state as it was brought to its time. One that reports an end, as
/// `err 32` does, makes its subdevice idle and leaves all else so.
pub fn refused_lines_leave_the_state()
    ensures { RefusalLaw }
{}

/// A line never changes a command that another file runs, nor a lock that another file holds.
pub fn other_files_keep_theirs()
    ensures { ForeignLaw }
{}

/// A subdevice stays busy exactly where a command is there.
pub fn busy_is_having_a_command()
    ensures { TiedLaw }
{}

/// A command that was brought to a time is as it was when it is brought there once more, and puts
/// nothing out.
pub fn bringing_twice_is_bringing_once()
    ensures same { BringingLaw }
    ensures silent { NothingIsLeft }
{}
