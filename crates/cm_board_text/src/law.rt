// Laws about the text of a board.
ghost use Rattle.cm_board_text.specs.NarrowBoards.{NarrowBoardsRoundByFlags};
ghost use Rattle.cm_board_text.specs.PrintedReads.{PrintedReads};
ghost use Rattle.cm_board_text.specs.Refusal.{FirstIsRefused};
ghost use Rattle.cm_board_text.specs.SoundBoards.{BoardsAreSound};

/// What `print_board` writes, with a `signals` line after it, is read as the same board.
pub fn what_is_printed_reads()
    ensures { PrintedReads }
{}

/// What is refused is the first line that fails: no reading of the lines before it fails, and
/// together with them it is refused by its cause.
pub fn first_fault_is_refused()
    ensures { FirstIsRefused }
{}

/// Every subdevice of a board that is read from a text keeps the limits and rules of `IsSoundSub`.
pub fn boards_are_sound()
    ensures { BoardsAreSound }
{}

/// A board of `comedi 1` or `comedi 2` has no counters, and rounds times as a command's flags say.
pub fn narrow_boards_round_by_flags()
    ensures { NarrowBoardsRoundByFlags }
{}
