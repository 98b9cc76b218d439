//! What the order of locks says of runs. Each function is a law, which its contract states.
ghost use Rattle.lk_circles.specs.Circles.{OrderExcludesCircles, OrderedHasNoCircle};

/// Where the order in which a program takes its mutexes has no cycle, no state to which it comes has threads
/// that wait in a circle, each for a mutex that the next one owns.
pub fn ordered_has_no_circle()
    ensures { OrderedHasNoCircle }
{}

/// So it is with the labels, the edges and what flows along these of a program that was lowered.
pub fn order_excludes_circles()
    ensures { OrderExcludesCircles }
{}
