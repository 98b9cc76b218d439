//! Laws of checked sources.
ghost use Rattle.lk_link.specs.Laws.{TypedUnitsAreSources};

/// The typed tree of a source has what is asked of a checked source.
pub fn typed_units_are_sources()
    ensures { TypedUnitsAreSources }
{}
