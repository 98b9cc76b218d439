//! What specifiers do with the tags and structs of a source (C99 6.7.2.1 to 6.7.2.3).
ghost use Rattle.std.specs.Prelude.{◌≡◌, ◌<◌, length, IfOk, IfSome};
ghost use Rattle.std.specs.Option.{option_copied};
ghost use Rattle.lk_types.specs.Table.{Table};
ghost use Rattle.lk_typed.specs.Env.{Env};
ghost use Rattle.lk_typed.specs.HolderRules.{enum_rules, optional_tag_rules};
ghost use Rattle.lk_typed.specs.Env.{look_up_tag};
ghost use Rattle.lk_typed.specs.Redeclared.{may_use};
ghost use Rattle.lk_typed.specs.Told.{struct_meant as spec_meant, tag_found};
ghost use Rattle.lk_names.specs.InScope.{env_in, IsKnownScope};
ghost use Rattle.lk_names.specs.Uses.{rules_use};
ghost use Rattle.lk_found.specs.Specified.{optional_breach};

use crate::gathered::Breach;
use lk_base::{Code, Name, NoMemory};
use lk_names::{Names, TagUse, struct_meant};

/// Whether a use of a tag may stand where it stands; one without a tag may.
pub fn admits(names: &Names, wanted: TagUse, tag: Option<&Name>) -> bool
    ensures { (table : Table) (rest : Env) → result ≡ may_use (env_in table rest names.now)
        (tag_found (env_in table rest names.now) (rules_use wanted) (option_copied tag.entry))
        (rules_use wanted) }
{
    match tag {
        Some(name) => names.may_use(names.tag_meant(wanted, name), wanted),
        None => true,
    }
}

/// The code of a use of a tag: `Code::Redeclared` where it may not stand.
pub fn tag_breach(
    names: &Names,
    wanted: TagUse,
    tag: Option<&Name>,
) -> Result<Option<Breach>, NoMemory>
    ensures { IfOk result (λ breach. (table : Table) (rest : Env) → optional_breach breach ≡
        optional_tag_rules (env_in table rest names.now) (rules_use wanted) (option_copied tag.entry)) }
{
    let Some(name) = tag else {
        return Ok(None);
    };
    match names.tag_code(wanted, name) {
        Some(code) => {
            let name = name.copy()?;
            Ok(Some(Breach {
                code,
                name: Some(name),
            }))
        }
        None => Ok(None),
    }
}

/// The code of `enum tag`: `Code::Incomplete` where there is no such tag, `Code::Redeclared` where it is no
/// enumeration's.
pub fn enum_breach(names: &Names, name: &Name) -> Result<Option<Breach>, NoMemory>
    ensures { IfOk result (λ breach. (table : Table) (rest : Env) → optional_breach breach ≡
        enum_rules (env_in table rest names.now) name.now
        (look_up_tag (env_in table rest names.now) name.now)) }
{
    if names.look_up_tag(name).is_none() {
        return Ok(Some(Breach {
            code: Code::Incomplete,
            name: None,
        }));
    }
    let breach = tag_breach(names, TagUse::NamesEnum, Some(name))?;
    Ok(breach)
}

/// The struct that the tag of a use already stands for.
pub fn known_struct(names: &Names, wanted: TagUse, tag: Option<&Name>) -> Option<u32>
    ensures value { (table : Table) (rest : Env) → result ≡
        spec_meant (tag_found (env_in table rest names.now) (rules_use wanted) (option_copied tag.entry)) }
    ensures known { (table : Table) → IsKnownScope table names.now →
        IfSome result (λ s. s < length names.now.structs) }
{
    match tag {
        Some(name) => struct_meant(names.tag_meant(wanted, name)),
        None => None,
    }
}
