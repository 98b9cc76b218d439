//! Scopes in which a part of a source stands (C99 6.2.1, 4).
ghost use Rattle.std.specs.Prelude.{◌≡◌, length, IfOk, OnOk};
ghost use Rattle.lk_typed.specs.Env.{Additions, Env, enter, extend};
ghost use Rattle.lk_names.specs.Growing.{IsKnownLeft, IsMarkOf};
ghost use Rattle.lk_checker.specs.Moves.{Grows};
ghost use Rattle.lk_checker.specs.Scopes.{IsEntered, IsLeft};
ghost use Rattle.lk_checker.specs.States.{IsIn, IsSound};

use crate::checker::Checker;
use lk_base::NoMemory;
use lk_names::{LeftScope, Mark};

impl Checker {
    /// Begins a scope. `leave_scope` takes the mark back.
    pub fn enter_scope(&mut self) -> Mark
        requires { IsSound self.old }
        ensures types { self.new.types ≡ self.old.types }
        ensures structs { self.new.names.structs ≡ self.old.names.structs }
        ensures grows { Grows self.old self.new }
        ensures entered { (env : Env) → IsIn self.old env → IsEntered self.new result env }
    {
        self.names.enter()
    }

    /// Ends the scope that was begun when the mark was given, and hands out its names and tags.
    pub fn leave_scope(&mut self, mark: Mark) -> Result<LeftScope, NoMemory>
        requires { IsSound self.old }
        ensures types { OnOk result (self.new.types ≡ self.old.types) }
        ensures structs { OnOk result (self.new.names.structs ≡ self.old.names.structs) }
        ensures grows { OnOk result (Grows self.old self.new) }
        ensures left { IfOk result (λ scope. (env : Env) (added : Additions) → IsMarkOf mark env →
            IsIn self.old (extend (enter env) added) → IsLeft self.new env added scope) }
        ensures known { IfOk result (IsKnownLeft self.new.types (length self.new.names.structs)) }
    {
        self.names.leave_with(self.alloc, mark)
    }
}
