// What holds of the definitions alone.
ghost use Rattle.cm_stream.specs.Merges.{EndsWithAllScans, GivesScansOfEach};
ghost use Rattle.cm_stream.specs.Polled.{ComesInScans};

/// What may come from a stream are the scans of the munged plan, in order and each once.
pub fn what_comes_is_scans()
    ensures { ComesInScans }
{}

/// What a merge gives over many steps are, for each source, its scans in order and each once.
pub fn a_merge_gives_the_scans_of_each()
    ensures { GivesScansOfEach }
{}

/// Where a merge has ended and its rings are paced, each source has given all its scans.
pub fn a_merge_ends_with_all_scans()
    ensures { EndsWithAllScans }
{}
