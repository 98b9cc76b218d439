//! What threads own, and which accesses race, in each state that a program comes to. Each function is a
//! law, which its contract states.
ghost use Rattle.lk_safe.specs.Soundness.{LinearIsOne, LocksAreHeld, RacesAreFound, RacesAreSuspect};
ghost use Rattle.lk_safe.specs.Soundness.{VerdictsAreSafe, VerdictsFindRaces};
ghost use Rattle.lk_safe.specs.Steps.{ReachedIsSafe, StartIsSafe, StepsKeepSafe, StepsMoveOwners, StepsMoveTrails};

/// What a step does to the trails of threads, and which objects it makes.
pub fn steps_move_trails()
    ensures { StepsMoveTrails }
{}

/// A step leaves threads what they own, but for what it gives back; it takes what it takes.
pub fn steps_move_owners()
    ensures { StepsMoveOwners }
{}

/// At the start threads own what the lock sets say, and no two have parted.
pub fn start_is_safe()
    ensures { StartIsSafe }
{}

/// So it stays in each step.
pub fn steps_keep_safe()
    ensures { StepsKeepSafe }
{}

/// So it holds of each state that a program comes to.
pub fn reached_is_safe()
    ensures { ReachedIsSafe }
{}

/// Soundness of locks (LOCKSMITH: lock state): a thread owns a mutex at the place of each lock of the lock
/// set of the point at which it stands.
pub fn locks_are_held()
    ensures { LocksAreHeld }
{}

/// Soundness of races (LOCKSMITH: races and correlation): a race in a run is two racing items of `main`, and
/// the threads own mutexes at the lock places of these.
pub fn races_are_found()
    ensures { RacesAreFound }
{}

/// A linear lock place has one mutex (LOCKSMITH: linearity).
pub fn linear_is_one()
    ensures { LinearIsOne }
{}

/// Soundness of races for the verdicts of a program that was lowered: by the tables from which they follow,
/// `main` has racing items from both accesses of each race at a location, each thread owns mutexes at the
/// lock places of its own, and a linear lock place has one mutex.
pub fn verdicts_find_races()
    ensures { VerdictsFindRaces }
{}

/// No state that a program comes to has a race at a location that isn't called suspect by the verdicts that
/// follow from a flow that is closed under the rules.
pub fn races_are_suspect()
    ensures { RacesAreSuspect }
{}

/// So it is with the verdicts of a program that was lowered, by its labels, its
/// edges and what flows along these.
pub fn verdicts_are_safe()
    ensures { VerdictsAreSafe }
{}
