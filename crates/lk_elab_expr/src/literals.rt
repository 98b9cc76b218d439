//! Texts (C99 6.4.5).
ghost use Rattle.std.specs.Prelude.{◌≡◌, IfOk};
ghost use Rattle.lk_typed.specs.declared.expression.Callee.TheOpen.{TypedForm-F};
ghost use Rattle.lk_typed.specs.declared.expression.TypedForm.{out-TypedForm};

use lk_base::{NoMemory, Seq};
use lk_elaborator::Elaborator;
use lk_typed::TypedForm;

/// A string literal.
pub(crate) fn text(walk: &Elaborator, bytes: &[u8]) -> Result<TypedForm, NoMemory>
    ensures { IfOk result (λ form. out-TypedForm form ≡ TypedForm-F.Text bytes.now) }
{
    let bytes = Vec::from_slice(walk.alloc, bytes)?;
    Ok(TypedForm::Text(Seq::new(bytes)))
}
