//! Laws of what is found of declarators.
ghost use Rattle.lk_found.specs.FormsOf.{TypesFollowForms};

/// The type that a declarator makes is the one that its forms make one after another.
pub fn types_follow_forms()
    ensures { TypesFollowForms }
{}
