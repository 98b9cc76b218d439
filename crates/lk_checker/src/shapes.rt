//! The type of a declarator, made of the type on its left from its outermost form to its name (C99 6.7.5).
ghost use Rattle.std.specs.Prelude.{◌≡◌, false, All, IfOk, IfSome, OnOk, reverse};
ghost use Rattle.std.specs.Option.{option_map};
ghost use Rattle.lk_types.specs.Table.{IsKnown};
ghost use Rattle.lk_typed.specs.Env.{Env};
ghost use Rattle.lk_typed.specs.Meaning.{meaning};
ghost use Rattle.lk_typed.specs.Told.{Span};
ghost use Rattle.lk_found.specs.Shaped.{form_at, forms_in, IsKnownAt, IsKnownLeft, IsLeft};
ghost use Rattle.lk_found.specs.Shapes.{IsElement};
ghost use Rattle.lk_checker.specs.Moves.{Puts};
ghost use Rattle.lk_checker.specs.Shaped.{IsKnownFound, IsKnownWalked, IsShaped, IsStep, IsWholeShaped};
ghost use Rattle.lk_checker.specs.States.{IsIn, IsSound};

use crate::checker::Checker;
use lk_base::NoMemory;
use lk_found::{
    DeclaratorFound, LayerAt, Left, Walked, at_declarator, either, large_code, made_by,
};
use lk_tree::Declarator;
use lk_types::TypeId;

impl Checker {
    /// What a form makes of the type on its left; its code is kept.
    fn shape_one(
        &mut self,
        form: LayerAt,
        left: Left,
        may_be_absent: bool,
    ) -> Result<Left, NoMemory>
        requires sound { IsSound self.old }
        requires left { IsKnownLeft self.old.types left }
        requires form { IsKnownAt self.old.types form }
        ensures known { IfOk result (IsKnownLeft self.new.types) }
        ensures puts { OnOk result (Puts self.old self.new) }
        ensures made { IfOk result (λ made. (span : Span) → IsIn self.old span.behind →
            IsLeft self.old.types span left → span.may_be_absent ≡ may_be_absent →
            IsStep self.old self.new span (form_at self.old.types form) left made) }
    {
        let LayerAt { at, layer } = form;
        let Left {
            ty,
            element,
            is_large,
        } = left;
        let made = made_by(&mut self.types, layer, ty, element, may_be_absent)?;
        self.types.is_table();
        self.keep(at, made.code)?;
        Ok(Left {
            ty: made.ty,
            element: made.element,
            is_large: either(is_large, made.is_large),
        })
    }

    /// What forms make of the type on their left, the last one first; their codes are kept.
    pub(crate) fn shape(
        &mut self,
        mut forms: Vec<LayerAt>,
        left: Left,
        may_be_absent: bool,
    ) -> Result<Left, NoMemory>
        requires sound { IsSound self.old }
        requires left { IsKnownLeft self.old.types left }
        requires forms { All (IsKnownAt self.old.types) forms.items }
        ensures known { IfOk result (IsKnownLeft self.new.types) }
        ensures puts { OnOk result (Puts self.old self.new) }
        ensures made { IfOk result (λ made. (span : Span) → IsIn self.old span.behind →
            IsLeft self.old.types span left → span.may_be_absent ≡ may_be_absent →
            IsShaped self.old self.new span (reverse (forms_in self.old.types forms.items)) left made) }
    {
        let mut left = left;
        while let Some(form) = forms.pop() {
            left = self.shape_one(form, left, may_be_absent)?;
        }
        Ok(left)
    }

    /// The type on the left of a declarator, with what is asked of it as the type of elements.
    pub fn left_of(&self, t: Option<TypeId>) -> Left
        requires sound { IsSound self.now }
        requires known { IfSome t (IsKnown self.now.types) }
        ensures ty { result.ty ≡ t }
        ensures small { result.is_large ≡ false }
        ensures is { (env : Env) → IsIn self.now env →
            IsElement env.structs result.element (option_map (meaning self.now.types) t) }
        ensures known { IsKnownLeft self.now.types result }
    {
        match t {
            Some(t) => Left {
                ty: Some(t),
                element: self.element(Some(t)),
                is_large: false,
            },
            None => Left {
                ty: None,
                element: self.element(None),
                is_large: false,
            },
        }
    }

    /// The type of a declarator whose forms were walked; their codes are kept, and `Code::LargeType` of it
    /// where it is over a bound.
    pub fn shape_whole(
        &mut self,
        d: &Declarator,
        walked: Walked,
        left: Left,
        may_be_absent: bool,
    ) -> Result<DeclaratorFound, NoMemory>
        requires sound { IsSound self.old }
        requires left { IsKnownLeft self.old.types left }
        requires small { left.is_large ≡ false }
        requires known { IsKnownWalked self.old walked }
        ensures known { IfOk result (IsKnownFound self.new) }
        ensures puts { OnOk result (Puts self.old self.new) }
        ensures shaped { IfOk result (IsWholeShaped self.old self.new d.now walked left may_be_absent) }
    {
        let Walked {
            layers,
            holds_sizeof,
            parameters,
            ..
        } = walked;
        let made = self.shape(layers, left, may_be_absent)?;
        self.keep(at_declarator(d), large_code(made.is_large))?;
        Ok(DeclaratorFound {
            ty: made.ty,
            holds_sizeof,
            parameters,
        })
    }
}
