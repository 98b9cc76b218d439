//! Laws of the definitions, as contracts of functions that do nothing.
ghost use Rattle.lk_parse_unit.specs.Tree.{HasOneTree};

/// Tokens are one tree at most, of whatever depth.
pub fn one_tree()
    ensures { HasOneTree }
{}
