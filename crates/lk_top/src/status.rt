//! The status that tells whether some location is suspect.
ghost use Rattle.std.specs.Prelude.{◌≡◌};
ghost use Rattle.lk_top.specs.Results.{has_suspect, is_suspect, status_of};

use lk_base::Status;
use lk_facts::{Verdict, VerdictState};

/// Whether a state is that of a suspect location.
fn is_suspect(state: VerdictState) -> bool
    ensures { result ≡ is_suspect state }
{
    match state {
        VerdictState::Guarded | VerdictState::Unshared => false,
        VerdictState::Suspect => true,
    }
}

/// Whether some location is suspect.
fn has_suspect(verdicts: &[Verdict]) -> bool
    ensures { result ≡ has_suspect verdicts.now }
{
    verdicts.iter().any(|verdict| is_suspect(verdict.state))
}

/// The status of verdicts.
pub(crate) fn status_of(verdicts: &[Verdict]) -> Status
    ensures { result ≡ status_of verdicts.now }
{
    match has_suspect(verdicts) {
        true => Status::Suspects,
        false => Status::Clean,
    }
}
