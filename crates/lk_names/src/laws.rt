//! Laws of what is in scope.
ghost use Rattle.lk_names.specs.Laws.{EnvironmentsStay, KnownLeftStays, KnownStays, LeftScopesStay};

/// What is in scope makes the same environment while the table of types grows.
pub fn environments_stay()
    ensures { EnvironmentsStay }
{}

/// The types in scope stay in the table while it grows.
pub fn known_stays()
    ensures { KnownStays }
{}

/// What was declared in a scope that was left makes the same additions while the table of types grows.
pub fn left_scopes_stay()
    ensures { LeftScopesStay }
{}

/// What is known of what was declared in a scope that was left stays known while the table of
/// types grows and structs come.
pub fn known_left_stays()
    ensures { KnownLeftStays }
{}
