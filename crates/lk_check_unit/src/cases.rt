//! The cases of a `switch` (C99 6.8.4.2).
ghost use Rattle.std.specs.Prelude.{◌≡◌, ◌∷◌, [], true, false, OnOk, IfOk, is_some, if◌then◌else◌};
ghost use Rattle.lk_typed.specs.StatementRules as spec;
ghost use Rattle.lk_typed.specs.StatementRules.{Around};
ghost use Rattle.lk_check_decl.specs.Breaches.{told};
ghost use Rattle.lk_check_decl.specs.Switches.{switch_of};
ghost use Rattle.lk_check_unit.specs.Bodies.{IsAround};

use crate::body::Body;
use lk_base::{Code, Kind, NoMemory};
use lk_check_decl::{CaseValues, Switch, case_code, case_value, default_code};
use lk_typed::Constant;
use std::alloc::Global;
use std::mem;

/// Puts the value of a case.
fn put_case(switch: &mut Switch, constant: Option<Constant>) -> Result<(), NoMemory>
    ensures { OnOk result (switch_of switch.new ≡
        spec.with_cases (constant ∷ []) false (switch_of switch.old)) }
{
    let value = case_value(switch.kind, constant);
    switch.values.push(value)
}

/// Puts a case, of which it is known what constant its value is, where that has a type: the code that holds
/// at the case.
pub(crate) fn around_case(
    body: &mut Body,
    constant: Option<Constant>,
) -> Result<Option<Code>, NoMemory>
    ensures code { IfOk result (λ code. (around : Around) → IsAround body.old around →
        code ≡ told (if is_some constant then spec.case_rules around constant else [])) }
    ensures around { OnOk result ((around : Around) → IsAround body.old around →
        IsAround body.new (spec.behind_cases around (constant ∷ []) false)) }
    ensures returned { OnOk result (body.new.returned ≡ body.old.returned) }
{
    let code = case_code(body.switch.as_ref(), constant);
    if let Some(switch) = &mut body.switch {
        put_case(switch, constant)?;
    }
    if constant.is_some() {
        Ok(code)
    } else {
        Ok(None)
    }
}

/// Puts a `default`: the code that holds at it.
pub(crate) fn around_default(body: &mut Body) -> Option<Code>
    ensures code { (around : Around) → IsAround body.old around → result ≡ told (spec.default_rules around) }
    ensures around { (around : Around) → IsAround body.old around →
        IsAround body.new (spec.behind_cases around [] true) }
    ensures returned { body.new.returned ≡ body.old.returned }
{
    let code = default_code(body.switch.as_ref());
    if let Some(switch) = &mut body.switch {
        switch.has_default = true;
    }
    code
}

/// Begins the body of a `switch` whose value is of this kind: the switch round it.
pub(crate) fn begin_switch(alloc: Global, body: &mut Body, kind: Option<Kind>) -> Option<Switch>
    ensures outer { result ≡ body.old.switch }
    ensures around { (around : Around) → IsAround body.old around →
        IsAround body.new (spec.in_body_of_switch around kind) }
    ensures returned { body.new.returned ≡ body.old.returned }
{
    let inner = Switch {
        kind,
        values: CaseValues::new(alloc),
        has_default: false,
    };
    mem::replace(&mut body.switch, Some(inner))
}
