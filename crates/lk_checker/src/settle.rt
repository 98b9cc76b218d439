//! An expression whose parts are judged: the rule of its form is asked, its code is kept, and what is
//! found of it is told (C99 6.5).
ghost use Rattle.std.specs.Prelude.{◌≡◌, Option, List, IfOk, OnOk, option_map};
ghost use Rattle.lk_tree.specs.declared.expression.DeclaratorForm.TheOpen.{ExprForm-F};
ghost use Rattle.lk_typed.specs.Env.{Env};
ghost use Rattle.lk_typed.specs.ExprRules.{look_of, rule};
ghost use Rattle.lk_typed.specs.Faults.{breach};
ghost use Rattle.lk_typed.specs.Names.{IsKnownRole, role_in};
ghost use Rattle.lk_typed.specs.NodeRules.{mark};
ghost use Rattle.lk_typed.specs.Typing.{Judged, Named};
ghost use Rattle.lk_check_expr.specs.Looks.{IsLook};
ghost use Rattle.lk_found.specs.Arguments.{AreOperands, IsGiven};
ghost use Rattle.lk_found.specs.Judging.{HasKnownType, HasOperand, IsRuled, TellsNoName, code_in, typed_in};
ghost use Rattle.lk_found.specs.Findings.{IsFound, IsFoundType, JudgedForm, mark_at};
ghost use Rattle.lk_checker.specs.Judging.{SettlesOne, SettlesThree, SettlesTwo};
ghost use Rattle.lk_checker.specs.States.{IsIn, IsSound, Settles, Tells};

use crate::checker::Checker;
use lk_base::{Kind, Name, NoMemory};
use lk_check_expr::{Look, character, number};
use lk_found::{
    At, Found, Given, Ruled, TypeFound, arrow_ruled, assign_ruled, binary_ruled, call_ruled,
    cast_ruled, choice_ruled, comma_ruled, dot_ruled, index_ruled, look_of_call, look_of_cast,
    look_of_one, look_of_three, look_of_two, paren_ruled, prefix_ruled, sizeof_expr_ruled,
    sizeof_type_ruled, step_ruled,
};
use lk_tree::{AssignOperator, BinaryOperator, Expr, PrefixOperator, StepOperator};
use lk_typed::{Role, Typed, Verdict};

/// Where an expression stands.
pub(crate) fn at_expr(e: &Expr) -> At
    ensures { mark_at result ≡ mark e.now.spot e.now.ordinal }
{
    At {
        spot: e.spot,
        ordinal: e.ordinal,
    }
}

impl Checker {
    /// Keeps the code of a verdict, where it has one, and tells no name.
    pub(crate) fn tell(&mut self, at: At, verdict: Verdict) -> Result<Option<Typed>, NoMemory>
        ensures tells { OnOk result (Tells self.old self.new at (option_map breach (code_in verdict))) }
        ensures typed { IfOk result (λ typing. typing ≡ typed_in verdict) }
    {
        match verdict {
            Verdict::Typed(typing) => Ok(Some(typing)),
            Verdict::Broken(code) => {
                self.keep(at, Some(code))?;
                Ok(None)
            }
            Verdict::Silent => Ok(None),
        }
    }

    /// Keeps the code of an expression, where its rule says one, and tells what is found of it.
    fn settle(&mut self, e: &Expr, ruled: Ruled, look: Look) -> Result<Found, NoMemory>
        requires { IsSound self.old }
        ensures { IfOk result (λ found. (env behind : Env) (form : JudgedForm) → TellsNoName e.now →
            IsRuled self.old.types ruled (rule behind e.now.ordinal form) →
            IsLook env look (look_of env form) →
            Settles self.old self.new e.now env behind form found) }
    {
        let at = at_expr(e);
        let typing = self.tell(at, ruled.verdict)?;
        Ok(Found {
            typing,
            address: ruled.address,
            look,
        })
    }

    /// The comma.
    pub fn settle_comma(&mut self, e: &Expr, a: &Found, b: &Found) -> Result<Found, NoMemory>
        requires sound { IsSound self.old }
        requires first { HasOperand self.old.types a.now }
        requires second { HasOperand self.old.types b.now }
        ensures { IfOk result (λ found.
            SettlesTwo self.old self.new e.now a.now b.now found (λ x y. ExprForm-F.Comma x y)) }
    {
        let ruled = comma_ruled(&self.types, a, b);
        let look = look_of_two(&a.look, &b.look);
        let found = self.settle(e, ruled, look)?;
        Ok(found)
    }

    /// An assignment.
    pub fn settle_assign(
        &mut self,
        e: &Expr,
        op: AssignOperator,
        a: &Found,
        b: &Found,
    ) -> Result<Found, NoMemory>
        requires sound { IsSound self.old }
        requires first { HasOperand self.old.types a.now }
        requires second { HasOperand self.old.types b.now }
        ensures { IfOk result (λ found.
            SettlesTwo self.old self.new e.now a.now b.now found (λ x y. ExprForm-F.Assign op x y)) }
    {
        let ruled = assign_ruled(&self.types, self.names.structs(), op, a, b);
        let look = look_of_two(&a.look, &b.look);
        let found = self.settle(e, ruled, look)?;
        Ok(found)
    }

    /// `?:`.
    pub fn settle_choice(
        &mut self,
        e: &Expr,
        c: &Found,
        a: &Found,
        b: &Found,
    ) -> Result<Found, NoMemory>
        requires sound { IsSound self.old }
        requires condition { HasOperand self.old.types c.now }
        requires first { HasOperand self.old.types a.now }
        requires second { HasOperand self.old.types b.now }
        ensures { IfOk result (λ found. SettlesThree self.old self.new e.now c.now a.now b.now found
            (λ z x y. ExprForm-F.Choice z x y)) }
    {
        let ruled = choice_ruled(&self.types, c, a, b);
        let look = look_of_three(&c.look, &a.look, &b.look);
        let found = self.settle(e, ruled, look)?;
        Ok(found)
    }

    /// An operator between two operands.
    pub fn settle_binary(
        &mut self,
        e: &Expr,
        op: BinaryOperator,
        a: &Found,
        b: &Found,
    ) -> Result<Found, NoMemory>
        requires sound { IsSound self.old }
        requires first { HasOperand self.old.types a.now }
        requires second { HasOperand self.old.types b.now }
        ensures { IfOk result (λ found.
            SettlesTwo self.old self.new e.now a.now b.now found (λ x y. ExprForm-F.Binary op x y)) }
    {
        let ruled = binary_ruled(&self.types, self.names.structs(), op, a, b);
        let look = Look::binary(op, &a.look, &b.look);
        let found = self.settle(e, ruled, look)?;
        Ok(found)
    }

    /// A cast.
    pub fn settle_cast(
        &mut self,
        e: &Expr,
        target: &TypeFound,
        a: &Found,
    ) -> Result<Found, NoMemory>
        requires sound { IsSound self.old }
        requires target { HasKnownType self.old.types target.now }
        requires operand { HasOperand self.old.types a.now }
        ensures { IfOk result (λ found.
            (env behind : Env) (t : Named) (x : Judged) → IsIn self.old behind → TellsNoName e.now →
            IsFoundType self.old.types target.now t → IsFound self.old.types env a.now x →
            Settles self.old self.new e.now env behind (ExprForm-F.Cast t x) found) }
    {
        let ruled = cast_ruled(&self.types, target, a);
        let look = look_of_cast(target, &a.look);
        let found = self.settle(e, ruled, look)?;
        Ok(found)
    }

    /// A call that stands so.
    pub fn settle_call(
        &mut self,
        e: &Expr,
        role: Role,
        f: &Found,
        given: &Given,
    ) -> Result<Found, NoMemory>
        requires sound { IsSound self.old }
        requires role { IsKnownRole self.old.types role }
        requires function { HasOperand self.old.types f.now }
        requires arguments { AreOperands self.old.types given.now }
        ensures { IfOk result (λ found. (env behind : Env) (x : Judged) (ys : List Judged) → TellsNoName e.now →
            behind.outside ≡ env.outside → role_in self.old.types role ≡ behind.role →
            IsFound self.old.types env f.now x → IsGiven self.old.types env given.now ys →
            Settles self.old self.new e.now env behind (ExprForm-F.Call x ys) found) }
    {
        let ruled = call_ruled(&self.types, role, f, given);
        let look = look_of_call(&f.look, given.holds_sizeof);
        let found = self.settle(e, ruled, look)?;
        Ok(found)
    }

    /// `++` or `--` before its operand.
    pub fn settle_pre(&mut self, e: &Expr, op: StepOperator, a: &Found) -> Result<Found, NoMemory>
        requires sound { IsSound self.old }
        requires operand { HasOperand self.old.types a.now }
        ensures { IfOk result (λ found.
            SettlesOne self.old self.new e.now a.now found (λ x. ExprForm-F.Pre op x)) }
    {
        let ruled = step_ruled(&self.types, self.names.structs(), a);
        let look = look_of_one(&a.look);
        let found = self.settle(e, ruled, look)?;
        Ok(found)
    }

    /// `++` or `--` behind its operand.
    pub fn settle_post(&mut self, e: &Expr, op: StepOperator, a: &Found) -> Result<Found, NoMemory>
        requires sound { IsSound self.old }
        requires operand { HasOperand self.old.types a.now }
        ensures { IfOk result (λ found.
            SettlesOne self.old self.new e.now a.now found (λ x. ExprForm-F.Post op x)) }
    {
        let ruled = step_ruled(&self.types, self.names.structs(), a);
        let look = look_of_one(&a.look);
        let found = self.settle(e, ruled, look)?;
        Ok(found)
    }

    /// An operator before its operand.
    pub fn settle_prefix(
        &mut self,
        e: &Expr,
        op: PrefixOperator,
        a: &Found,
    ) -> Result<Found, NoMemory>
        requires sound { IsSound self.old }
        requires operand { HasOperand self.old.types a.now }
        ensures { IfOk result (λ found.
            SettlesOne self.old self.new e.now a.now found (λ x. ExprForm-F.Prefix op x)) }
    {
        let ruled = prefix_ruled(&self.types, op, a);
        let look = a.look.behind_prefix(op);
        let found = self.settle(e, ruled, look)?;
        Ok(found)
    }

    /// `sizeof` of an expression; `in_size` says whether it stands in the size of an allocation.
    pub fn settle_sizeof_expr(
        &mut self,
        e: &Expr,
        a: &Found,
        in_size: bool,
    ) -> Result<Found, NoMemory>
        requires sound { IsSound self.old }
        requires operand { HasOperand self.old.types a.now }
        ensures { IfOk result (λ found.
            (env behind : Env) (x : Judged) → IsIn self.old behind → TellsNoName e.now →
            in_size ≡ behind.in_size → IsFound self.old.types env a.now x →
            Settles self.old self.new e.now env behind (ExprForm-F.SizeofExpr x) found) }
    {
        let ruled = sizeof_expr_ruled(&self.types, self.names.structs(), a, in_size);
        let look = Look::sizeof();
        let found = self.settle(e, ruled, look)?;
        Ok(found)
    }

    /// `sizeof` of a type name; `in_size` says whether it stands in the size of an allocation.
    pub fn settle_sizeof_type(
        &mut self,
        e: &Expr,
        named: &TypeFound,
        in_size: bool,
    ) -> Result<Found, NoMemory>
        requires sound { IsSound self.old }
        requires known { HasKnownType self.old.types named.now }
        ensures { IfOk result (λ found.
            (env behind : Env) (t : Named) → IsIn self.old behind → TellsNoName e.now →
            in_size ≡ behind.in_size → IsFoundType self.old.types named.now t →
            Settles self.old self.new e.now env behind (ExprForm-F.SizeofType t) found) }
    {
        let ruled = sizeof_type_ruled(&self.types, self.names.structs(), named, in_size);
        let look = Look::sizeof();
        let found = self.settle(e, ruled, look)?;
        Ok(found)
    }

    /// An element of an array.
    pub fn settle_index(&mut self, e: &Expr, a: &Found, i: &Found) -> Result<Found, NoMemory>
        requires sound { IsSound self.old }
        requires array { HasOperand self.old.types a.now }
        requires inner { HasOperand self.old.types i.now }
        ensures { IfOk result (λ found.
            SettlesTwo self.old self.new e.now a.now i.now found (λ x y. ExprForm-F.Index x y)) }
    {
        let ruled = index_ruled(&self.types, self.names.structs(), a, i);
        let look = look_of_two(&a.look, &i.look);
        let found = self.settle(e, ruled, look)?;
        Ok(found)
    }

    /// A member of a struct.
    pub fn settle_dot(&mut self, e: &Expr, a: &Found, name: &Name) -> Result<Found, NoMemory>
        requires sound { IsSound self.old }
        requires operand { HasOperand self.old.types a.now }
        ensures { IfOk result (λ found.
            SettlesOne self.old self.new e.now a.now found (λ x. ExprForm-F.Member x name.now)) }
    {
        let ruled = dot_ruled(&self.types, self.names.structs(), a, name);
        let look = look_of_one(&a.look);
        let found = self.settle(e, ruled, look)?;
        Ok(found)
    }

    /// A member of the struct that a pointer points to.
    pub fn settle_arrow(&mut self, e: &Expr, a: &Found, name: &Name) -> Result<Found, NoMemory>
        requires sound { IsSound self.old }
        requires operand { HasOperand self.old.types a.now }
        ensures { IfOk result (λ found.
            SettlesOne self.old self.new e.now a.now found (λ x. ExprForm-F.Arrow x name.now)) }
    {
        let ruled = arrow_ruled(&self.types, self.names.structs(), a, name);
        let look = look_of_one(&a.look);
        let found = self.settle(e, ruled, look)?;
        Ok(found)
    }

    /// An expression in parentheses: it is what it was without them.
    pub fn settle_paren(&mut self, e: &Expr, a: &Found) -> Result<Found, NoMemory>
        requires sound { IsSound self.old }
        requires operand { HasOperand self.old.types a.now }
        ensures { IfOk result (λ found.
            SettlesOne self.old self.new e.now a.now found (λ x. ExprForm-F.Paren x)) }
    {
        let ruled = paren_ruled(a);
        let look = a.look.in_parentheses();
        let found = self.settle(e, ruled, look)?;
        Ok(found)
    }

    /// An integer constant.
    pub fn settle_number(&mut self, e: &Expr, kind: Kind, n: u64) -> Result<Found, NoMemory>
        requires { IsSound self.old }
        ensures { IfOk result (λ found. (env behind : Env) → TellsNoName e.now →
            Settles self.old self.new e.now env behind (ExprForm-F.Number kind n) found) }
    {
        let ruled = Ruled::plain(number(kind, n));
        let look = Look::plain(false);
        let found = self.settle(e, ruled, look)?;
        Ok(found)
    }

    /// A character constant.
    pub fn settle_char(&mut self, e: &Expr, n: i32) -> Result<Found, NoMemory>
        requires { IsSound self.old }
        ensures { IfOk result (λ found. (env behind : Env) → TellsNoName e.now →
            Settles self.old self.new e.now env behind (ExprForm-F.Char n) found) }
    {
        let ruled = Ruled::plain(character(n));
        let look = Look::plain(false);
        let found = self.settle(e, ruled, look)?;
        Ok(found)
    }
}
