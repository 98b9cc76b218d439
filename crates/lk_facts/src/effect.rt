//! What an action is to the analysis.
ghost use Rattle.std.specs.Prelude.{◌≡◌};
ghost use Rattle.lk_facts.specs.Effects as spec;

/// What an action is to the analysis. An operand is the number of the point whose value it is.
#[derive(Clone, Copy)]
pub enum Effect {
    /// It accesses no cell, takes and frees no mutex for good, and goes into no function.
    Nothing,
    /// It reads cells of the place that the operand points to.
    Reads(u32),
    /// It writes cells of the place that the operand points to.
    Writes(u32),
    /// It takes the mutex that the operand points to.
    Takes(u32),
    /// It frees the mutex that the operand points to.
    Frees(u32),
    /// It runs the function of this number in its own thread.
    Runs(u32),
    /// It runs a function that the operand points to in its own thread.
    RunsThrough(u32),
    /// It starts a thread at the function of this number.
    Starts(u32),
}

impl Effect {
    /// The operand through which it accesses cells, where it does so.
    pub fn accessed(self) -> Option<u32>
        ensures { result ≡ spec.accessed self }
    {
        match self {
            Effect::Reads(a) | Effect::Writes(a) => Some(a),
            Effect::Nothing
            | Effect::Takes(_)
            | Effect::Frees(_)
            | Effect::Runs(_)
            | Effect::RunsThrough(_)
            | Effect::Starts(_) => None,
        }
    }

    /// Whether it writes the cells that it accesses.
    pub fn writes(self) -> bool
        ensures { result ≡ spec.writes self }
    {
        match self {
            Effect::Writes(_) => true,
            Effect::Nothing
            | Effect::Reads(_)
            | Effect::Takes(_)
            | Effect::Frees(_)
            | Effect::Runs(_)
            | Effect::RunsThrough(_)
            | Effect::Starts(_) => false,
        }
    }

    /// The function that it goes into by its number, to run it or to start a thread there.
    pub fn entered(self) -> Option<u32>
        ensures { result ≡ spec.entered self }
    {
        match self {
            Effect::Runs(f) | Effect::Starts(f) => Some(f),
            Effect::Nothing
            | Effect::Reads(_)
            | Effect::Writes(_)
            | Effect::Takes(_)
            | Effect::Frees(_)
            | Effect::RunsThrough(_) => None,
        }
    }
}
