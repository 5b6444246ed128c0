// What holds of the definitions alone, and of the numbers that the code gives to rows and forms.
ghost use Rattle.std.specs.Prelude.{◌≡◌, ◌∷◌, []};
ghost use Rattle.cm_board.specs.Law.{DownIsGreatest, DownToTick, FormsAreAsNamed, UpIsLeast, UpToTick};
ghost use Rattle.cm_board.specs.Rows as rows;
ghost use Rattle.cm_board.specs.declared.lines.TheConstants as lines;

/// The code gives the rows and the forms the numbers that they have in the definitions.
pub fn constants_are_rows()
    ensures codes { (lines.BITS ≡ rows.bits) × (lines.MUNGE ≡ rows.munge) × (lines.RANGE ≡ rows.range) }
    ensures sources { lines.SOURCES ≡ rows.sources }
    ensures times { (lines.TICK ≡ rows.tick) × (lines.SCAN ≡ rows.scan) × (lines.CONVERT ≡ rows.convert) }
    ensures sizes { (lines.LIST ≡ rows.list) × (lines.SCANS ≡ rows.scans) × (lines.LINES ≡ rows.lines) × (lines.BUFFER ≡ rows.buffer) }
    ensures rules { (lines.SAME_RANGE ≡ rows.same_range) × (lines.FORBID ≡ rows.forbid) }
    ensures second { (lines.INVERT ≡ rows.invert) × (lines.FIFO ≡ rows.fifo) }
    ensures clock { (lines.CLOCK ≡ rows.clock) × (lines.ROUNDS ≡ rows.rounds) × (lines.HALF_DOWN ≡ rows.half_down) }
    ensures scans { (lines.PER_ENTRY ≡ rows.per_entry) × (lines.HOLDS ≡ rows.holds) }
    ensures order { lines.ORDER ≡ rows.order }
    ensures lists { (lines.SAME_REFERENCE ≡ rows.same_reference) × (lines.SAME_POLARITY ≡ rows.same_polarity) }
    ensures channels { (lines.CHAN_BITS ≡ rows.chan_bits) × (lines.CHAN_MUNGE ≡ rows.chan_munge) × (lines.CHAN_RANGE ≡ rows.chan_range) }
    ensures flags { (lines.FLAG ≡ rows.flag) × (lines.FLAG_FORM ≡ rows.flag_form) }
    ensures code_forms { (lines.BITS_FORM ≡ rows.bits_form) × (lines.RANGE_FORM ≡ rows.range_form) }
    ensures source_forms { lines.SOURCES_FORM ≡ rows.sources_form }
    ensures munge_forms { (lines.MUNGE_NONE ≡ rows.munge_form) × (lines.MUNGE_OFFSET ≡ rows.offset_form) }
    ensures tick_forms { lines.TICK_FORM ≡ rows.tick_form }
    ensures time_forms { (lines.SCAN_FORM ≡ rows.scan_form) × (lines.CONVERT_FORM ≡ rows.convert_form) }
    ensures size_forms { (lines.LIST_FORM ≡ rows.list_form) × (lines.SCANS_FORM ≡ rows.scans_form) }
    ensures more_forms { (lines.LINES_FORM ≡ rows.lines_form) × (lines.BUFFER_FORM ≡ rows.buffer_form) }
    ensures list_forms { lines.REPEATED_FORM ≡ rows.repeated_form }
    ensures channel_forms { lines.CHAN_MUNGE_NONE ≡ rows.chan_munge_form }
{}

/// Each form that has a name is the one in the table that its name says.
pub fn forms_are_as_named()
    ensures { FormsAreAsNamed }
{}

/// Of the times that timers can make, `down` is the greatest one not above a time, and `up` the least
/// one not below it.
pub fn times_are_nearest()
    ensures down { DownIsGreatest }
    ensures up { UpIsLeast }
{}

/// Without counters the times that timers can make are the multiples of their tick, and the nearest
/// below and above are quotients.
pub fn plain_timers_divide()
    ensures down { DownToTick }
    ensures up { UpToTick }
{}
