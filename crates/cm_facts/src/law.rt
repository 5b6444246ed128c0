// What holds of the definitions alone.
ghost use Rattle.cm_facts.specs.Bounds.{WavesStayWithin};
ghost use Rattle.cm_facts.specs.Examples.{AreExamples};

/// The worked examples have the facts that are given with them.
pub fn the_examples_are_described()
    ensures { AreExamples }
{}

/// A wave stays between the two levels that its fact has.
pub fn waves_stay_within()
    ensures { WavesStayWithin }
{}
