// What holds of the outputs of each loop.
ghost use Rattle.cm_loop.specs.Law.{IsAsLong, IsOnScale, LoopLaw};

/// There are as many outputs as samples.
#[tactic(auto, using(crate::proofs::Outputs::is_as_long))]
pub fn an_output_for_each_sample()
    ensures { IsAsLong }
{}

/// No output is above the greatest code of its entry's output channel, where no sample is above that
/// of its entry's input channel.
#[tactic(auto, using(crate::proofs::Outputs::is_on_scale))]
pub fn outputs_are_on_scale()
    ensures { IsOnScale }
{}

/// A loop puts out the words of its filter, each at the time of its conversion: as many as there are conversions and
/// words.
pub fn a_loop_puts_its_filter()
    ensures { LoopLaw }
{}
