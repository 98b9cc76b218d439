//! What the rules say along trails. Each function is a law, which its contract states.
ghost use Rattle.lk_trails.specs.Laws.{CountsAreKept, MeaningGoesOut, PastsAreKept};

/// What a label means inside a function, one of those that it may be outside means outside.
pub fn meaning_goes_out()
    ensures { MeaningGoesOut }
{}

/// Any two trails of threads have parted, whatever step is next.
pub fn pasts_are_kept()
    ensures { PastsAreKept }
{}

/// What is made once is made once, whatever step is next.
pub fn counts_are_kept()
    ensures { CountsAreKept }
{}
