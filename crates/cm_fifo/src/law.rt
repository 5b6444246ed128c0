// What holds of the definitions alone.
ghost use Rattle.cm_fifo.specs.Law.{AllHanded, HandedAfterComing, HandedByCounts, HandedInOrder, HandedInTime};
ghost use Rattle.cm_fifo.specs.Law.{LostAfterHanded, LostByCounts, NextIsLost};

/// What a board with a FIFO hands over are the conversions of the expansion in order.
pub fn handed_in_order()
    ensures { HandedInOrder }
{}

/// The times at which they are handed over never fall, and none is above the horizon.
pub fn handed_in_time()
    ensures { HandedInTime }
{}

/// By any time no more were handed over than had come.
pub fn handed_after_coming()
    ensures { HandedAfterComing }
{}

/// Where none is lost, all are handed over.
pub fn all_are_handed_over()
    ensures { AllHanded }
{}

/// Where one is lost, all that are handed over were handed over by then, and they are not all.
pub fn one_is_lost_after_the_others()
    ensures { LostAfterHanded }
{}

/// Where one is lost, it is the conversion after those that are handed over, and it is lost when it comes.
pub fn the_next_one_is_lost()
    ensures { NextIsLost }
{}

/// How many are handed over by a time, and when one is lost, by places of the whole expansion.
pub fn handed_by_counts()
    ensures counts { HandedByCounts }
    ensures losses { LostByCounts }
{}
