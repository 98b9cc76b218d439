//! Enumerators, one after another (C99 6.7.2.2).
ghost use Rattle.std.specs.Prelude.{IfOk};
ghost use Rattle.lk_typed.specs.Told.{before_first};
ghost use Rattle.lk_checker.specs.States.{IsSound};
ghost use Rattle.lk_check_walk.specs.Counting.{Counts, CountsAll};

use crate::expressions::judge;
use lk_base::NoMemory;
use lk_checker::{Checker, ItemFound};
use lk_found::{At, Stands, either};
use lk_tree::Item;

/// Whether a `sizeof` stands in enumerators. They are declared, and each fault in them is kept.
#[cycle(walk)]
pub(crate) fn items(checker: &mut Checker, list: &[Item], in_size: bool) -> Result<bool, NoMemory>
    requires { IsSound checker.old }
    ensures { IfOk result (CountsAll checker.old checker.new in_size before_first list.now) }
{
    let mut before = Some(-1);
    let mut holds_sizeof = false;
    for i in list {
        let found = item(checker, i, before, in_size)?;
        before = found.value;
        holds_sizeof = either(holds_sizeof, found.holds_sizeof);
    }
    Ok(holds_sizeof)
}

/// What is found of an enumerator behind one of this value. It is declared, and each fault in it is kept.
#[cycle(walk)]
fn item(
    checker: &mut Checker,
    i: &Item,
    before: Option<i32>,
    in_size: bool,
) -> Result<ItemFound, NoMemory>
    requires { IsSound checker.old }
    ensures { IfOk result (Counts checker.old checker.new in_size before i.now) }
{
    let at = At {
        spot: i.spot,
        ordinal: i.ordinal,
    };
    match &i.value {
        Some(e) => {
            let found = match judge(checker, e, Stands::operand(in_size)) {
                Ok(found) => found,
                Err(fault) => return Err(fault),
            };
            let item = checker.written_item(at, &i.name, found)?;
            Ok(item)
        }
        None => {
            let item = checker.counted_item(at, &i.name, before)?;
            Ok(item)
        }
    }
}
