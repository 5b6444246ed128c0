// What holds of the definitions alone.
ghost use Rattle.cm_cli.specs.Headline.{HeadlineLaw, JobsAreSound, ToldLaw};

use cm_block::law::{a_run_streams_prefixes, a_watch_streams_prefixes};
use cm_board_text::law::boards_are_sound;
use cm_loop::law::a_loop_puts_its_filter;
use cm_replay::law::{
    each_read_can_be_read_back, losses_come_exactly, sessions_go_well, what_is_put_out_is_a_prefix,
    what_is_read_is_a_prefix,
};
use cm_session::law::sessions_are_in_order;
use cm_signal_text::law::signals_are_sound;

/// Every job of a session that is read from bytes is sound.
pub fn jobs_are_sound()
    ensures { JobsAreSound }
{
    boards_are_sound();
    signals_are_sound();
    sessions_are_in_order();
}

/// The headline, over the bytes of a job: whatever bytes are read as a session's job, what its client
/// marks as read is a prefix of the command's munged expansion in trigger order. It is the whole at
/// `done` and `dry`, and exactly k samples of more at `overrun k` and `fifo k`. A sample is lost just
/// when its conversion comes and its place isn't there. What an output puts out are the first words
/// that its client marked, munged. The samples that are read or looked at can be read back from the
/// bytes of the answers.
pub fn the_headline()
    ensures { HeadlineLaw }
{
    jobs_are_sound();
    what_is_read_is_a_prefix();
    sessions_go_well();
    losses_come_exactly();
    what_is_put_out_is_a_prefix();
    each_read_can_be_read_back();
}

/// If `replay` or `insn` has an answer to some bytes, they are read as a job, the answer is the text of
/// its session, and the headline holds of it. Each text that a job with threads may have says of each line a
/// prefix of its expansion and how it ended.
pub fn what_is_told()
    ensures { ToldLaw }
{
    a_run_streams_prefixes();
    a_watch_streams_prefixes();
    a_loop_puts_its_filter();
    the_headline();
}
