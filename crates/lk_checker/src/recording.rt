//! What the names of which an expression speaks itself stand for here, as it is recorded.
ghost use Rattle.std.specs.Option.{option_copied};
ghost use Rattle.lk_typed.specs.Env.{Env, look_up};
ghost use Rattle.lk_found.specs.Uses.{AreNamesIn, IsMeant, found_by};
ghost use Rattle.lk_checker.specs.States.{IsIn, IsSound};

use crate::checker::Checker;
use lk_base::Name;
use lk_found::{Meant, NamesIn, meant_by, taken, word};
use lk_tree::Expr;

impl Checker {
    /// What a name stands for here.
    fn meant_here(&self, name: &Name) -> Option<Meant>
        requires { IsSound self.now }
        ensures { (env : Env) → IsIn self.now env →
            IsMeant self.now.types result (look_up env name.now) }
    {
        match self.names.look_up(name) {
            Some(declared) => Some(meant_by(declared)),
            None => None,
        }
    }

    /// What a name stands for here, where there is one.
    fn meant_if_there(&self, name: Option<&Name>) -> Option<Meant>
        requires { IsSound self.now }
        ensures { (env : Env) → IsIn self.now env →
            IsMeant self.now.types result (found_by env (option_copied name.entry)) }
    {
        match name {
            Some(name) => self.meant_here(name),
            None => None,
        }
    }

    /// The names of which an expression speaks itself.
    pub fn names_in(&self, e: &Expr) -> NamesIn
        requires { IsSound self.now }
        ensures { (env : Env) → IsIn self.now env → AreNamesIn self.now.types env e.now result }
    {
        NamesIn {
            word: self.meant_if_there(word(e)),
            taken: self.meant_if_there(taken(e)),
        }
    }
}
