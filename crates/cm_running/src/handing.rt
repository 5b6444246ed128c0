// What hands the conversions of a command over.
ghost use Rattle.std.specs.Prelude.{◌≡◌, [], None, min, length, take, drop, slice_get, option_map};
ghost use Rattle.cm_expand.specs.Taking.{NeverFalls, come, raw_words};
ghost use Rattle.cm_running.specs.ToCome.{GivesBy, ToCome};

use cm_expand::conv::Conv;

/// Hands the conversions of a command over, each at the time at which it reaches the buffer.
pub trait HandsOver: Drop {
    /// What is still to come.
    ghost ahead: { Self → ToCome };

    /// When the next conversion comes.
    fn next_time(&mut self) -> Option<u64>
        ensures value { result ≡ option_map (λ conv. conv.time) (slice_get (ahead self.old).conversions 0) }
        ensures order { NeverFalls (ahead self.old).conversions }
        ensures after { self.new ≡ self.old };

    /// Gives the next conversion where it has come by a time, and steps after it.
    fn next_by(&mut self, time: u64) -> Option<Conv>
        ensures conversions { GivesBy time result (ahead self.old).conversions (ahead self.new).conversions }
        ensures after { ahead self.new ≡ record (ahead self.old) { conversions = (ahead self.new).conversions } };

    /// Gives the raw words of the next conversions that have come by a time, as many as `out` can
    /// hold, and steps after them. Reports how many. What `out` has after them may be anything.
    fn take_by(&mut self, time: u64, out: &mut [u32]) -> usize
        ensures order { NeverFalls (ahead self.old).conversions }
        ensures count { result ≡ min (length out.old) (come time (ahead self.old).conversions) }
        ensures words { take result out.new ≡ raw_words (take result (ahead self.old).conversions) }
        ensures size { length out.new ≡ length out.old }
        ensures after { ahead self.new ≡ record (ahead self.old) { conversions = drop result (ahead self.old).conversions } };

    /// The edge that stops the command, where one stops it.
    fn stop_edge(&self) -> Option<u64>
        ensures { result ≡ (ahead self.now).edge };

    /// When a conversion is lost on the board, where one is: after all that come.
    fn lost_at(&self) -> Option<u64>
        requires { (ahead self.now).conversions ≡ [] }
        ensures { result ≡ (ahead self.now).lost_at };

    /// Whether the expansion, all of which has come, has all conversions that the command is to make
    /// until it stops.
    fn is_complete(&self) -> bool
        requires spent { (ahead self.now).conversions ≡ [] }
        requires whole { (ahead self.now).lost_at ≡ None }
        ensures { result ≡ (ahead self.now).complete };
}
