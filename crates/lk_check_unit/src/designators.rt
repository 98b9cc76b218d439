//! Designators of initialisers (C99 6.7.8).
ghost use Rattle.std.specs.Prelude.{◌≡◌, ◌&&◌, OnOk, IfOk};
ghost use Rattle.lk_checker.specs.States.{IsSound};
ghost use Rattle.lk_check_unit.specs.Bodies.{Grows};
ghost use Rattle.lk_check_unit.specs.Initialising.{WalksDesignator, WalksDesignators};

use crate::asking::condition;
use lk_base::NoMemory;
use lk_checker::Checker;
use lk_tree::Designator;

/// A designator: whether its index has a type, where it has one.
fn designator(checker: &mut Checker, d: &Designator) -> Result<bool, NoMemory>
    requires { IsSound checker.old }
    ensures grows { OnOk result (Grows checker.old checker.new) }
    ensures walks { IfOk result (WalksDesignator d.now checker.old checker.new) }
{
    match d {
        Designator::Member(_) => Ok(true),
        Designator::Index(e) => {
            let asked = condition(checker, e)?;
            Ok(asked.is_typed)
        }
    }
}

/// Whether both hold.
pub(crate) fn both(a: bool, b: bool) -> bool
    ensures { result ≡ (a && b) }
{
    a && b
}

/// Designators one after the other: whether all have types.
pub(crate) fn designators(checker: &mut Checker, ds: &[Designator]) -> Result<bool, NoMemory>
    requires { IsSound checker.old }
    ensures grows { OnOk result (Grows checker.old checker.new) }
    ensures walks { IfOk result (WalksDesignators ds.now checker.old checker.new) }
{
    let mut are_typed = true;
    for d in ds {
        let is_typed = designator(checker, d)?;
        are_typed = both(are_typed, is_typed);
    }
    Ok(are_typed)
}
