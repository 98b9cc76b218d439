//! The words for actions and causes.

use lk_facts::Action;
use lk_values::Why;

/// The word for an action.
pub(crate) fn action_word(action: &Action) -> &'static str {
    match action {
        Action::Value { .. } => "Value",
        Action::Null { .. } => "Null",
        Action::Func { .. } => "Func",
        Action::SelfId => "SelfId",
        Action::Root(_) => "Root",
        Action::Text(_) => "Text",
        Action::Field { .. } => "Field",
        Action::Index { .. } => "Index",
        Action::Read { .. } => "Read",
        Action::Write { .. } => "Write",
        Action::SlotRead(_) => "SlotRead",
        Action::SlotWrite { .. } => "SlotWrite",
        Action::Unary { .. } => "Unary",
        Action::Binary { .. } => "Binary",
        Action::Compute { .. } => "Compute",
        Action::Convert { .. } => "Convert",
        Action::Branch(_) => "Branch",
        Action::Switch { .. } => "Switch",
        Action::Skip => "Skip",
        Action::Call { .. } => "Call",
        Action::PointerCall { .. } => "PointerCall",
        Action::Return(_) => "Return",
        Action::Create { .. } => "Create",
        Action::StoreId(_) => "StoreId",
        Action::Join(_) => "Join",
        Action::Detach(_) => "Detach",
        Action::ExitThread => "ExitThread",
        Action::ExitProcess => "ExitProcess",
        Action::Lock(_) => "Lock",
        Action::Unlock(_) => "Unlock",
        Action::Release { .. } => "Release",
        Action::Retake(_) => "Retake",
        Action::Init(_) => "Init",
        Action::Destroy(_) => "Destroy",
        Action::Signal(_) => "Signal",
        Action::Allocate { .. } => "Allocate",
        Action::Free(_) => "Free",
        Action::Scan(_) => "Scan",
        Action::Fill { .. } => "Fill",
    }
}

/// The answer for a cause.
pub(crate) fn cause_word(why: Why) -> &'static str {
    match why {
        Why::Overflow => "undefined Overflow",
        Why::DivideByZero => "undefined DivideByZero",
        Why::Shift => "undefined Shift",
        Why::Indeterminate => "undefined Indeterminate",
        Why::Null => "undefined Null",
        Why::Dead => "undefined Dead",
        Why::Outside => "undefined Outside",
        Why::WrongType => "undefined WrongType",
        Why::ConstText => "undefined ConstText",
        Why::NotOwner => "undefined NotOwner",
        Why::NotReady => "undefined NotReady",
        Why::OwnedLock => "undefined OwnedLock",
        Why::BadFree => "undefined BadFree",
        Why::BadJoin => "undefined BadJoin",
        Why::NoValue => "undefined NoValue",
    }
}
