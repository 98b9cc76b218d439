//! Codes that are kept at a node, those of its specifiers among them.
ghost use Rattle.std.specs.Prelude.{◌≡◌, ◌++◌, ◌∷◌, [], Some, None, if◌then◌else◌, OnOk};
ghost use Rattle.lk_base.specs.declared.code.Code.TheVariants as codes;
ghost use Rattle.lk_typed.specs.Faults.{breach};
ghost use Rattle.lk_found.specs.Specified.{breach_in, breaches_in};
ghost use Rattle.lk_checker.specs.Moves.{IsSame, KeepsAt};

use crate::checker::Checker;
use lk_base::{Code, NoMemory};
use lk_found::{At, Breach};

/// `Code::BitField`, where there is a bit-field.
fn bit_field_code(has_bit_field: bool) -> Option<Code>
    ensures { result ≡ (if has_bit_field then Some codes.BitField else None) }
{
    if has_bit_field {
        Some(Code::BitField)
    } else {
        None
    }
}

impl Checker {
    /// Keeps a code at a node.
    fn keep_breach(&mut self, at: At, breach: &Breach) -> Result<(), NoMemory>
        ensures kept { OnOk result (KeepsAt self.old self.new at (breach_in breach.now ∷ [])) }
        ensures same { OnOk result (IsSame self.old self.new) }
    {
        match &breach.name {
            Some(name) => self.keep_named(at, Some(breach.code), name)?,
            None => self.keep(at, Some(breach.code))?,
        }
        Ok(())
    }

    /// Keeps codes at a node.
    pub fn keep_all(&mut self, at: At, breaches: &[Breach]) -> Result<(), NoMemory>
        ensures kept { OnOk result (KeepsAt self.old self.new at (breaches_in breaches.now)) }
        ensures same { OnOk result (IsSame self.old self.new) }
    {
        for breach in breaches {
            self.keep_breach(at, breach)?;
        }
        Ok(())
    }

    /// Keeps the codes of a member: those of its specifiers, and `Code::BitField` of a bit-field; none where
    /// a width has no type.
    pub fn keep_member(
        &mut self,
        at: At,
        breaches: &[Breach],
        has_bit_field: bool,
        are_typed: bool,
    ) -> Result<(), NoMemory>
        ensures kept { OnOk result (KeepsAt self.old self.new at (if are_typed then
            breaches_in breaches.now ++ (if has_bit_field then breach codes.BitField ∷ [] else []) else [])) }
        ensures same { OnOk result (IsSame self.old self.new) }
    {
        if !are_typed {
            return Ok(());
        }
        self.keep_all(at, breaches)?;
        self.keep(at, bit_field_code(has_bit_field))?;
        Ok(())
    }
}
