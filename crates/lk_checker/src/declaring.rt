//! How a name without linkage is declared: an enumerator or a parameter (C99 6.2.1, 6.7.2.2, 6.7.5.3).
ghost use Rattle.std.specs.Prelude.{◌≡◌, IfOk, OnOk};
ghost use Rattle.lk_typed.specs.Env.{Env};
ghost use Rattle.lk_typed.specs.Names.{meaning_in, IsKnownMeaning};
ghost use Rattle.lk_typed.specs.NodeRules.{plain_name};
ghost use Rattle.lk_typed.specs.Redeclared.{name_rules};
ghost use Rattle.lk_typed.specs.Told.{declares};
ghost use Rattle.lk_typed.specs.declared.entity.Defines.TheVariants as defines;
ghost use Rattle.lk_typed.specs.declared.entity.Linkage.TheVariants as linkage;
ghost use Rattle.lk_names.specs.Uses.{breaches_told};
ghost use Rattle.lk_rules.specs.Keeping.{KeepsCodes};
ghost use Rattle.lk_found.specs.Findings.{mark_at};
ghost use Rattle.lk_checker.specs.Moves.{Grows, GoesOn};
ghost use Rattle.lk_checker.specs.States.{IsIn, IsSound, kept_in, recorded_in};

use crate::checker::Checker;
use lk_base::{Code, Name, NoMemory};
use lk_found::At;
use lk_typed::{Declared, Defines, Linkage, Meaning};

/// A name without linkage.
fn plain(name: &Name, meaning: Meaning, ordinal: u32) -> Result<Declared, NoMemory>
    ensures { IfOk result (λ declared. declared ≡ record {
      name = name.now;
      meaning = meaning;
      linkage = linkage.None;
      defines = defines.Nothing;
      ordinal = ordinal;
    }) }
{
    let name = name.copy()?;
    Ok(Declared {
        name,
        meaning,
        linkage: Linkage::None,
        defines: Defines::Nothing,
        ordinal,
    })
}

impl Checker {
    /// The code of a name without linkage: `Code::Redeclared` where it may not be declared here.
    fn name_code(&self, name: &Name, meaning: Meaning) -> Result<Option<Code>, NoMemory>
        requires sound { IsSound self.now }
        requires meaning { IsKnownMeaning self.now.types meaning }
        ensures { IfOk result (λ code. (env : Env) → IsIn self.now env → breaches_told code name.now ≡
            name_rules env (plain_name name.now (meaning_in self.now.types meaning))) }
    {
        let declared = plain(name, meaning, 0)?;
        let code = self.names.redeclaration_code(&self.types, &declared);
        Ok(code)
    }

    /// Keeps the code of a name without linkage.
    pub(crate) fn keep_name(
        &mut self,
        at: At,
        name: &Name,
        meaning: Meaning,
    ) -> Result<(), NoMemory>
        requires sound { IsSound self.old }
        requires meaning { IsKnownMeaning self.old.types meaning }
        ensures types { OnOk result (self.new.types ≡ self.old.types) }
        ensures names { OnOk result (self.new.names ≡ self.old.names) }
        ensures outside { OnOk result (self.new.outside ≡ self.old.outside) }
        ensures records { OnOk result (recorded_in self.new ≡ recorded_in self.old) }
        ensures keeps { OnOk result ((env : Env) → IsIn self.old env →
            KeepsCodes (kept_in self.old) (mark_at at)
            (name_rules env (plain_name name.now (meaning_in self.old.types meaning))) (kept_in self.new)) }
    {
        let code = self.name_code(name, meaning)?;
        self.keep_named(at, code, name)?;
        Ok(())
    }

    /// Declares a name without linkage.
    pub(crate) fn declare_plain(
        &mut self,
        name: &Name,
        meaning: Meaning,
        ordinal: u32,
    ) -> Result<(), NoMemory>
        requires sound { IsSound self.old }
        requires meaning { IsKnownMeaning self.old.types meaning }
        ensures types { OnOk result (self.new.types ≡ self.old.types) }
        ensures structs { OnOk result (self.new.names.structs ≡ self.old.names.structs) }
        ensures grows { OnOk result (Grows self.old self.new) }
        ensures behind { OnOk result (GoesOn self.old self.new
            (λ env. declares name.now ordinal (meaning_in self.old.types meaning))) }
    {
        let declared = plain(name, meaning, ordinal)?;
        self.names.declare(declared)?;
        Ok(())
    }
}
