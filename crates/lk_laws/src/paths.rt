//! Matched paths: their rules, and what they say of walks through contexts. Each function is a
//! law, which its contract states.
ghost use Rattle.lk_laws.specs.PathLaws.{
  LevelIsClosed,
  LevelIsLeast,
  RiseAndFallAreTheirRules,
  FlowIsClosed,
  FlowIsLeast,
  ExactFlowIsClosed,
  UpAndDown,
  OverCalls,
  OverValues,
};

/// Level is closed: each label stands in it with itself, and Plain edges and matched calls lead on
/// through labels that aren't global.
pub fn level_is_closed()
    ensures { LevelIsClosed }
{}

/// Level is within each table that is closed.
pub fn level_is_least()
    ensures { LevelIsLeast }
{}

/// Rise and Fall are closed, the one for Leaves and the other for Enters between levels, and
/// are within each table that is.
pub fn rise_and_fall_are_their_rules()
    ensures { RiseAndFallAreTheirRules }
{}

/// All, Inner and Cross are closed under their rules over Level.
pub fn flow_is_closed()
    ensures { FlowIsClosed }
{}

/// All, Inner and Cross are within each flow that is closed.
pub fn flow_is_least()
    ensures { FlowIsLeast }
{}

/// A flow that has just All, Inner and Cross is closed.
pub fn exact_flow_is_closed()
    ensures { ExactFlowIsClosed }
{}

/// Up and down: where an origin has a walk to a label, it is in All of the label.
pub fn up_and_down()
    ensures { UpAndDown }
{}

/// Over, for calls: where an origin has a walk to a label inside a site, of what the label may be outside the
/// origin is one, or has a walk to one.
pub fn over_calls()
    ensures { OverCalls }
{}

/// Over, for functions that are used as values: there the label may be the origin itself.
pub fn over_values()
    ensures { OverValues }
{}
