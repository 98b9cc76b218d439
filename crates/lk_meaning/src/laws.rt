//! What holds of each step, whatever its action. Each function is a law, which its contract states.
ghost use Rattle.lk_meaning.specs.Laws.{EachThreadHasOneFate, EndedStayEnded, FirstStatesAreReached, StepsReach, OwnersAreKept, OtherCellsAreKept};

/// A thread that is there moves to one state, waits, is undefined by one cause, or
/// has ended: just one of these.
pub fn each_thread_has_one_fate()
    ensures { EachThreadHasOneFate }
{}

/// A thread that has ended stays so.
pub fn ended_stay_ended()
    ensures { EndedStayEnded }
{}

/// The first states of a program are reached.
pub fn first_states_are_reached()
    ensures { FirstStatesAreReached }
{}

/// A step leads from a state that is reached to one that is.
pub fn steps_reach()
    ensures { StepsReach }
{}

/// A mutex that a thread owns stays so but for its own unlock or release; it comes to own one by its own
/// lock or retake of a free one.
pub fn owners_are_kept()
    ensures { OwnersAreKept }
{}

/// A step changes the cell that it writes and the mutex or condition variable of its operand, and
/// no other cell that was there.
pub fn other_cells_are_kept()
    ensures { OtherCellsAreKept }
{}
