// What holds of the definitions alone.
ghost use Rattle.cm_insn.specs.Law.{BitsAreFew, BitsAreValues, BitsComeBack, WrittenIsRead};
ghost use Rattle.cm_insn.specs.Stays.{OthersStay};

/// The word of a digital subdevice has a bit for each of its first 32 channels, and no others. A bit
/// that an output took is read from it.
pub fn bits_are_values()
    ensures values { BitsAreValues }
    ensures few { BitsAreFew }
    ensures back { BitsComeBack }
{}

/// What was last written to an output is read from it.
pub fn what_is_written_is_read()
    ensures { WrittenIsRead }
{}

/// A channel that an instruction doesn't name keeps its value and its direction.
pub fn the_others_stay()
    ensures { OthersStay }
{}
