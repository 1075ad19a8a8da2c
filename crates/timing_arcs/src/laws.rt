//! Laws of the definitions, for the crates above.
ghost use Rattle.timing_arcs.specs.Laws.{ChecksAreSound, ArcsAreSound, ArcsEndHere, ArcsAreApart, TimingsArePlaced};

/// The checks that are read keep the rules of a cell's checks, where no condition has more than 10 names.
pub fn checks_are_sound()
    ensures { ChecksAreSound }
{}

/// The arcs that are read keep the rules of a cell's arcs, where no condition has more than 10 names.
pub fn arcs_are_sound()
    ensures { ArcsAreSound }
{}

/// The arcs that are read end at the pin whose timing is read.
pub fn arcs_end_here()
    ensures { ArcsEndHere }
{}

/// No two of the arcs that are read have the same ends and the same condition.
pub fn arcs_are_apart()
    ensures { ArcsAreApart }
{}

/// There is an offset for each check and each arc that is read, and the left-out groups are among the pin's items.
pub fn timings_are_placed()
    ensures { TimingsArePlaced }
{}
