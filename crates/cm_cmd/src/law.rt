// What holds of the definitions alone.
ghost use Rattle.cm_cmd.specs.PrintedReads.{PrintedReads, ReadHasText};

/// A command that was printed is read as the same command, and a command that was read is one that
/// can be printed.
pub fn what_is_printed_reads()
    ensures printed { PrintedReads }
    ensures read { ReadHasText }
{}
