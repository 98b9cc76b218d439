//! What is asked of a type that may become that of elements or members (C99 6.7.2.1, 2; 6.7.5.2, 1).
ghost use Rattle.std.specs.Prelude.{IfSome};
ghost use Rattle.std.specs.Option.{option_map};
ghost use Rattle.lk_types.specs.Table.{IsKnown};
ghost use Rattle.lk_typed.specs.Env.{Env};
ghost use Rattle.lk_typed.specs.Meaning.{meaning};
ghost use Rattle.lk_found.specs.Shapes.{IsElement, IsElementIn};
ghost use Rattle.lk_checker.specs.States.{IsIn, IsSound};

use crate::checker::Checker;
use lk_check_expr::is_broken;
use lk_found::Element;
use lk_typed::is_complete;
use lk_types::TypeId;

impl Checker {
    /// What is asked of a type that may become that of elements: whether it is complete
    /// and whether it is faulty, here.
    pub(crate) fn element(&self, t: Option<TypeId>) -> Element
        requires sound { IsSound self.now }
        requires known { IfSome t (IsKnown self.now.types) }
        ensures is { (env : Env) → IsIn self.now env →
            IsElement env.structs result (option_map (meaning self.now.types) t) }
        ensures part { IfSome t (IsElementIn self.now.types result) }
    {
        match t {
            Some(t) => Element {
                is_complete: is_complete(&self.types, self.names.structs(), t),
                is_broken: is_broken(&self.types, self.names.structs(), t),
            },
            None => Element {
                is_complete: false,
                is_broken: false,
            },
        }
    }
}
