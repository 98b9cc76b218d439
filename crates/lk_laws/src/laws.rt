//! What the definitions imply. Each function is a law, which its contract states.
ghost use Rattle.lk_laws.specs.Laws.{
  HeldIsNeverNotHeld,
  LockSetsAreExact,
  NothingIsHeldAtEntries,
  ReleasedIsNotHeld,
  CalleesLockIsNotKept,
  RacesComeInPairs,
  GuardIsInLockSets,
  VerdictIsOne,
  SuspectStaysUnguarded,
  VerdictsAreOne,
};

/// No lock is both held and not held on some way.
pub fn held_is_never_not_held()
    ensures { HeldIsNeverNotHeld }
{}

/// A lock set has just the locks that some table holds which the rules allow, and lacks just those
/// that aren't held on some way.
pub fn lock_sets_are_exact()
    ensures { LockSetsAreExact }
{}

/// Nothing is held where a function begins.
pub fn nothing_is_held_at_entries()
    ensures { NothingIsHeldAtEntries }
{}

/// A lock that is released on some way isn't held at its end.
pub fn released_is_not_held()
    ensures { ReleasedIsNotHeld }
{}

/// A caller's lock that the callee may release isn't kept while the callee runs.
pub fn callees_lock_is_not_kept()
    ensures { CalleesLockIsNotKept }
{}

/// Racing accesses come in pairs, of which one writes, and one is of a thread that was started.
pub fn races_come_in_pairs()
    ensures { RacesComeInPairs }
{}

/// A lock place that guards a location is in the lock set of each racing access.
pub fn guard_is_in_lock_sets()
    ensures { GuardIsInLockSets }
{}

/// A location has one verdict at most.
pub fn verdict_is_one()
    ensures { VerdictIsOne }
{}

/// More points after one another, more items, fewer locks and fewer linear places never turn a suspect
/// location into a guarded one.
pub fn suspect_stays_unguarded()
    ensures { SuspectStaysUnguarded }
{}

/// The analysis has one list of verdicts for a program.
pub fn verdicts_are_one()
    ensures { VerdictsAreOne }
{}
