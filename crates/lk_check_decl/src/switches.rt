//! The rules of `break`, `continue` and cases: `Code::BadLabel`, and `Code::NotConstant` of a case
//! (C99 6.8.1, 6.8.4.2, 6.8.6).
ghost use Rattle.std.specs.Prelude.{◌≡◌, ◌||◌, Some, option_copied};
ghost use Rattle.std.specs.Option.{option_map};
ghost use Rattle.lk_typed.specs.StatementRules as spec;
ghost use Rattle.lk_typed.specs.StatementRules.{Around};
ghost use Rattle.lk_check_decl.specs.Breaches.{told};
ghost use Rattle.lk_check_decl.specs.Switches.{switch_of};

use crate::breaches::unless;
use crate::case_values::CaseValues;
use lk_arith::{convert, promoted};
use lk_base::{Code, Kind};
use lk_typed::{Constant, lesser};

/// A `switch`, as far as it stands before a statement in it.
#[derive(Drop)]
pub struct Switch {
    /// The kind of its value, where that is an integer.
    pub kind: Option<Kind>,
    /// The values of its cases so far, converted to its promoted type; nothing
    /// for one of which none is known.
    pub values: CaseValues,
    /// Whether it has a `default` already.
    pub has_default: bool,
}

/// The code of `break;`: `Code::BadLabel` outside a loop and a `switch` (C99 6.8.6.3, 1).
pub fn break_code(in_loop: bool, in_switch: bool) -> Option<Code>
    ensures { (around : Around) → around.in_loop ≡ in_loop → spec.in_switch around ≡ in_switch →
        result ≡ told (spec.break_rules around) }
{
    unless(in_loop || in_switch, Code::BadLabel)
}

/// The code of `continue;`: `Code::BadLabel` outside a loop (C99 6.8.6.2, 1).
pub fn continue_code(in_loop: bool) -> Option<Code>
    ensures { (around : Around) → around.in_loop ≡ in_loop → result ≡ told (spec.continue_rules around) }
{
    unless(in_loop, Code::BadLabel)
}

/// The value of a case: converted to the promoted type of its `switch` (C99 6.8.4.2, 5), where that has an
/// integer kind and the value is known.
pub fn case_value(kind: Option<Kind>, value: Option<Constant>) -> Option<i128>
    ensures { result ≡ spec.case_value kind value }
{
    match kind {
        Some(kind) => match value {
            Some(Constant::Known(value)) => Some(convert(promoted(kind), value)),
            Some(Constant::NotConstant | Constant::Undefined) | None => None,
        },
        None => None,
    }
}

/// The code of a case by the `switch` round it: `Code::BadLabel` where there is none, or where an earlier
/// case has its value (C99 6.8.1, 2; 6.8.4.2, 3).
fn place_code(switch: Option<&Switch>, value: Option<Constant>) -> Option<Code>
    ensures { result ≡ told (spec.place_rules (option_map switch_of (option_copied switch.entry)) value) }
{
    match switch {
        Some(switch) => {
            let value = case_value(switch.kind, value);
            unless(!switch.values.has(value), Code::BadLabel)
        }
        None => Some(Code::BadLabel),
    }
}

/// The code of the value of a case: `Code::NotConstant` where it isn't constant (C99 6.8.4.2, 3).
fn constant_code(value: Option<Constant>) -> Option<Code>
    ensures { result ≡ told (spec.constant_rules value) }
{
    match value {
        Some(Constant::NotConstant | Constant::Undefined) => Some(Code::NotConstant),
        Some(Constant::Known(_)) | None => None,
    }
}

/// The code of `case value:`: `Code::NotConstant` where its value isn't constant; `Code::BadLabel` outside a
/// `switch`, or where an earlier case of it has its value. `switch` is the innermost one round it, as far as
/// it stands before the case.
pub fn case_code(switch: Option<&Switch>, value: Option<Constant>) -> Option<Code>
    ensures { (around : Around) → around.switch ≡ option_map switch_of (option_copied switch.entry) →
        result ≡ told (spec.case_rules around value) }
{
    let constant = constant_code(value);
    let place = place_code(switch, value);
    lesser(constant, place)
}

/// The code of `default:`: `Code::BadLabel` outside a `switch`, or where that has an earlier one
/// (C99 6.8.1, 2; 6.8.4.2, 3).
pub fn default_code(switch: Option<&Switch>) -> Option<Code>
    ensures { (around : Around) → around.switch ≡ option_map switch_of (option_copied switch.entry) →
        result ≡ told (spec.default_rules around) }
{
    match switch {
        Some(switch) => unless(!switch.has_default, Code::BadLabel),
        None => Some(Code::BadLabel),
    }
}
