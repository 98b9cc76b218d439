//! The rules of labels and `goto`: `Code::BadLabel` (C99 6.8.1, 6.8.6.1).
ghost use Rattle.std.specs.Prelude.{◌≡◌};
ghost use Rattle.lk_typed.specs.StatementRules as spec;
ghost use Rattle.lk_typed.specs.StatementRules.{Around};
ghost use Rattle.lk_check_decl.specs.Breaches.{told};
ghost use Rattle.lk_labels.specs.Leasts.{AreLabels, is_before};

use crate::labels::Labels;
use lk_base::{Code, Name};
use lk_typed::code_if;

/// The code of `goto name;`: `Code::BadLabel` where the function has no such label (C99 6.8.6.1, 1).
pub fn goto_code(labels: &Labels, name: &Name) -> Option<Code>
    ensures { (around : Around) → AreLabels labels.now around.labels →
        result ≡ told (spec.goto_rules around name.now) }
{
    match labels.number_of(name) {
        Some(_) => None,
        None => Some(Code::BadLabel),
    }
}

/// Whether a number that may be there is less than this one.
fn is_before(number: Option<u32>, other: u32) -> bool
    ensures { result ≡ is_before number other }
{
    match number {
        Some(number) => number < other,
        None => false,
    }
}

/// The code of `name:`, the node with this number: `Code::BadLabel` where the function has the label before
/// it (C99 6.8.1, 3).
pub fn label_code(labels: &Labels, name: &Name, ordinal: u32) -> Option<Code>
    ensures { (around : Around) → AreLabels labels.now around.labels →
        result ≡ told (spec.label_rules around name.now ordinal) }
{
    let least = labels.number_of(name);
    code_if(is_before(least, ordinal), Code::BadLabel)
}
