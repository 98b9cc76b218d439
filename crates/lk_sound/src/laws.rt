//! What holds of the states that a program comes to. Each function is a law, which its contract states.
ghost use Rattle.lk_sound.specs.Soundness.{CellsAreSound, ReachedIsSound, RightChangesKeep, StartIsSound, StepsKeepSound};

/// At the start each pointer that is stored flows to what holds it, where the static initialisers are right.
pub fn start_is_sound()
    ensures { StartIsSound }
{}

/// A change that is right keeps that.
pub fn right_changes_keep()
    ensures { RightChangesKeep }
{}

/// So does each step.
pub fn steps_keep_sound()
    ensures { StepsKeepSound }
{}

/// So it holds of each state that a program comes to.
pub fn reached_is_sound()
    ensures { ReachedIsSound }
{}

/// Soundness of cells (LOCKSMITH: label flow): where a thread is about to touch a cell, the origin of the
/// cell's place is among those that flow to the label of the access.
pub fn cells_are_sound()
    ensures { CellsAreSound }
{}
