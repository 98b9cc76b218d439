//! What holds of what steps change. Each function is a law, which its contract states.
ghost use Rattle.lk_right.specs.Laws.{ChangesAreRight};

/// Where each pointer that a state stores flows to what holds it, so does each that a defined step gives,
/// writes, passes or returns, in the context of what then holds it.
pub fn changes_are_right()
    ensures { ChangesAreRight }
{}
