//! Names and texts as expressions (C99 6.4.5, 6.5.1).
ghost use Rattle.std.specs.Prelude.{◌≡◌, Option, Some, IfOk, OnOk, option_map};
ghost use Rattle.lk_tree.specs.declared.expression.DeclaratorForm.TheOpen.{ExprForm-F};
ghost use Rattle.lk_typed.specs.Env.{Env, look_up};
ghost use Rattle.lk_typed.specs.Expressions.{AWord, breach_at, written};
ghost use Rattle.lk_typed.specs.Names.{role_in};
ghost use Rattle.lk_typed.specs.Words.{word_rule};
ghost use Rattle.lk_check_expr.specs.Looks.{IsLook, word_look};
ghost use Rattle.lk_check_expr.specs.NameUses.{IsUse};
ghost use Rattle.lk_found.specs.Judging.{IsRuled, TellsNoName, code_in, typed_in};
ghost use Rattle.lk_checker.specs.States.{IsIn, IsSound, Settles, Tells};

use crate::checker::Checker;
use crate::settle::at_expr;
use lk_base::{Code, Name, NoMemory};
use lk_check_expr::{Look, NameUse, text, word};
use lk_found::{At, Found, Ruled, is_told_with_name, whole, word_ruled};
use lk_tree::Expr;
use lk_typed::{Role, Typed, Verdict};

impl Checker {
    /// Keeps a code at a name, and tells the name with those that do.
    fn keep_at_word(&mut self, at: At, code: Code, name: &Name) -> Result<(), NoMemory>
        ensures { OnOk result (Tells self.old self.new at (Some (breach_at (AWord name.now) code))) }
    {
        if is_told_with_name(code) {
            self.keep_named(at, Some(code), name)
        } else {
            self.keep(at, Some(code))
        }
    }

    /// Keeps the code of a verdict at a name, where it has one.
    fn tell_word(
        &mut self,
        at: At,
        verdict: Verdict,
        name: &Name,
    ) -> Result<Option<Typed>, NoMemory>
        ensures tells { OnOk result
            (Tells self.old self.new at (option_map (breach_at (AWord name.now)) (code_in verdict))) }
        ensures typed { IfOk result (λ typing. typing ≡ typed_in verdict) }
    {
        match verdict {
            Verdict::Typed(typing) => Ok(Some(typing)),
            Verdict::Broken(code) => {
                self.keep_at_word(at, code, name)?;
                Ok(None)
            }
            Verdict::Silent => Ok(None),
        }
    }

    /// How a name is used that stands so.
    fn use_of(&self, name: &Name, role: Role) -> NameUse
        ensures { (env : Env) → IsIn self.now env → role_in self.now.types role ≡ env.role →
            IsUse self.now.types env name.now result }
    {
        NameUse {
            role,
            is_defined: self.is_defined(name),
            is_listed: self.is_listed(name),
        }
    }

    /// What is said of a name that is used so, and how it is written.
    fn word_said(&self, name: &Name, role: Role) -> (Ruled, Look)
        requires { IsSound self.now }
        ensures ruled { (env : Env) → IsIn self.now env → role_in self.now.types role ≡ env.role →
            IsRuled self.now.types result.0 (word_rule env name.now) }
        ensures look { (env : Env) → IsIn self.now env → role_in self.now.types role ≡ env.role →
            IsLook env result.1 (word_look (look_up env name.now)) }
    {
        let used = self.use_of(name, role);
        let found = self.names.look_up(name);
        let ruled = word_ruled(&self.types, name, &used, found);
        let look = Look::word(&self.types, &used, found);
        (ruled, look)
    }

    /// A name that stands so.
    pub fn settle_word(&mut self, e: &Expr, name: &Name, role: Role) -> Result<Found, NoMemory>
        requires { IsSound self.old }
        ensures { IfOk result (λ found. (env behind : Env) → IsIn self.old env → IsIn self.old behind →
            role_in self.old.types role ≡ env.role → role_in self.old.types role ≡ behind.role →
            written e.now ≡ AWord name.now →
            Settles self.old self.new e.now env behind (ExprForm-F.Word name.now) found) }
    {
        let (ruled, look) = self.word_said(name, role);
        let at = at_expr(e);
        let typing = self.tell_word(at, ruled.verdict, name)?;
        Ok(Found {
            typing,
            address: ruled.address,
            look,
        })
    }

    /// String literals one after another.
    pub fn settle_text(&mut self, e: &Expr, bytes: &[u8]) -> Result<Found, NoMemory>
        requires { IsSound self.old }
        ensures { IfOk result (λ found. (env behind : Env) → TellsNoName e.now →
            Settles self.old self.new e.now env behind (ExprForm-F.Text bytes.now) found) }
    {
        if self.types.count() == u32::MAX {
            return Err(NoMemory);
        }
        let verdict = text(&mut self.types, bytes)?;
        let at = at_expr(e);
        let look = Look::text(bytes);
        let address = whole();
        let typing = self.tell(at, verdict)?;
        Ok(Found {
            typing,
            address,
            look,
        })
    }
}
