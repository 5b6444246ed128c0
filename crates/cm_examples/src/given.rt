// What the text of a job with threads has to do with those that the program may write.
ghost use Rattle.cm_examples.specs.Answering.{TextMayBeGiven};

/// The text of a job with threads that an example names is one that the program may write for it.
pub fn the_text_may_be_given()
    ensures { TextMayBeGiven }
{}
