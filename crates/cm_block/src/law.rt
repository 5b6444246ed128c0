// What holds of the definitions of a run's text.
ghost use Rattle.cm_block.specs.StreamLaw.{RunLaw, WatchLaw};

/// In each text that a run may have, the samples of a line are a prefix of its munged expansion in trigger order:
/// all of them at `done` and `dry`, as many as were asked for at `taken`, and exactly k at `overrun k`, which only
/// a free line reports. The words of a `drive` line are those that were given, each at the time of its conversion.
#[tactic(auto, using(crate::proofs::Streams::run_law))]
pub fn a_run_streams_prefixes()
    ensures { RunLaw }
{}

/// The same of the text of a watch.
#[tactic(auto, using(crate::proofs::Streams::watch_law))]
pub fn a_watch_streams_prefixes()
    ensures { WatchLaw }
{}
