//! Labels (C99 6.8.1).
ghost use Rattle.std.specs.Prelude.{IfOk, List};
ghost use Rattle.lk_typed.specs.Labels.{Label};
ghost use Rattle.lk_labels.specs.Leasts.{AreLabels, LabelNamed};

use lk_base::{Name, NoMemory};
use lk_elaborator::nowhere;
use lk_labels::Labels;

/// The number of the node of the label with a name. A `goto` has its label in the function (C99 6.8.6.1, 1).
pub(crate) fn label_named(labels: &Labels, name: &Name) -> Result<u32, NoMemory>
    ensures { IfOk result (λ n. (found : List Label) → AreLabels labels.now found →
        LabelNamed found name.now n) }
{
    match labels.number_of(name) {
        Some(number) => Ok(number),
        None => Err(nowhere()),
    }
}
