//! The state of the checker where a source begins.
ghost use Rattle.std.specs.Prelude.{◌≡◌, List, IfOk, OnOk};
ghost use Rattle.lk_tree.specs.declared.statement.Unit.{Unit};
ghost use Rattle.lk_typed.specs.Env.{Name};
ghost use Rattle.lk_typed.specs.Meaning.{IsReady};
ghost use Rattle.lk_typed.specs.Units.{around};
ghost use Rattle.lk_rules.specs.Keeping.{none_kept};
ghost use Rattle.lk_found.specs.Recorded.{nothing_recorded};
ghost use Rattle.lk_checker.specs.States.{IsIn, IsSound, kept_in};
ghost use Rattle.lk_predeclared.specs.Beginning.{Predeclares};
ghost use Rattle.lk_checker.specs.Sources.{IsOutsideOf};

use crate::functions::declare_functions;
use crate::words::declare_words;
use lk_base::NoMemory;
use lk_checker::{Checker, Outside};
use lk_names::Names;
use lk_types::TypeTable;
use std::alloc::Global;

/// Declares what is predeclared: the words, and behind them the functions.
fn declare_all(alloc: Global, types: &mut TypeTable, names: &mut Names) -> Result<(), NoMemory>
    requires { IsReady types.old }
    ensures { OnOk result (Predeclares types.old names.old types.new names.new) }
{
    declare_words(alloc, names)?;
    declare_functions(alloc, types, names)?;
    Ok(())
}

/// A checker where a source begins: what is predeclared is in scope, and nothing else.
pub fn begin(alloc: Global, outside: Outside) -> Result<Checker, NoMemory>
    ensures sound { IfOk result IsSound }
    ensures kept { IfOk result (λ checker. kept_in checker ≡ none_kept) }
    ensures outside { IfOk result (λ checker. checker.outside ≡ outside) }
    ensures records { IfOk result (λ checker. checker.records ≡ nothing_recorded) }
    ensures begins { IfOk result (λ checker. (externs : List Name) (unit : Unit) →
        IsOutsideOf outside externs unit → IsIn checker (around externs unit)) }
{
    let mut checker = Checker::new(alloc, outside)?;
    let declared = declare_all(alloc, &mut checker.types, &mut checker.names);
    declared.and(Ok(checker))
}
