//! What holds of schedules. Each function is a law, which its contract states.
ghost use Rattle.lk_play.specs.Schedules.{SchedulesAreOne};

/// A file is one schedule, or has one first bad line, and not both.
pub fn schedules_are_one()
    ensures { SchedulesAreOne }
{}
