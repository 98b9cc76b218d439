//! The nodes of a body that have an object or a slot of their own: texts, allocations, and expressions whose
//! value comes on several ways.

ghost use Rattle.std.specs.Prelude.{◌≡◌, ◌++◌, ◌∷◌, [], map, OnOk};
ghost use Rattle.std.specs.Option.{option_map};
ghost use Rattle.lk_lower_expr.specs.Owned as rules;
ghost use Rattle.lk_lower_parts.specs.Found.{Adds, as_node, callee_owned, form_in, item_owned, library_owned, node_of, owned_here};

use lk_base::{Boxed, NoMemory, Seq, Spot};
use lk_typed::{
    Callee, LibraryCall, LocalInit, LocalPart, LocalValue, StaticPart, TypedExpr, TypedFirst,
    TypedForm, TypedItem, TypedStmt, TypedStmtForm,
};
use lk_types::{CType, TypeId, TypeTable};
use std::alloc::Global;

/// A node of the typed tree: its number, the place of its first token, and the source's number of its type.
#[derive(Clone, Copy)]
pub struct OwnedNode {
    pub ordinal: u32,
    pub spot: Spot,
    pub ty: TypeId,
}

/// What a node has of its own.
#[derive(Drop)]
pub enum Owned {
    /// The object of a string literal, by its bytes without the zero at its end.
    Text(OwnedNode, Seq<u8>),
    /// What an allocation gives: one object of the type, or an array of them.
    Allocation(OwnedNode, TypeId, bool),
    /// A slot of a value of the node's type.
    Hidden(OwnedNode),
}

/// What is read while they are found.
#[derive(Drop)]
pub struct Finding<'a> {
    pub alloc: Global,
    /// The types of the source.
    pub table: &'a TypeTable,
}

/// The node of an expression.
fn owned_node(e: &TypedExpr) -> OwnedNode
    ensures { as_node result ≡ node_of e.now }
{
    OwnedNode {
        ordinal: e.ordinal,
        spot: e.spot,
        ty: e.ty,
    }
}

/// Whether there is no count.
fn is_one(count: &Option<Boxed<TypedExpr>>) -> bool
    ensures { result ≡ rules.is_one count.now }
{
    match count {
        Some(_) => false,
        None => true,
    }
}

impl Finding<'_> {
    /// Adds the text of an expression.
    fn push_text(&self, e: &TypedExpr, bytes: &[u8], out: &mut Vec<Owned>) -> Result<(), NoMemory>
        ensures { OnOk result (Adds out.old.items out.new.items
            (rules.text (node_of e.now) bytes.now ∷ [])) }
    {
        let bytes = Seq::new(Vec::from_slice(self.alloc, bytes)?);
        out.push(Owned::Text(owned_node(e), bytes))?;
        Ok(())
    }

    /// Adds the slot of an expression.
    fn push_hidden(&self, e: &TypedExpr, out: &mut Vec<Owned>) -> Result<(), NoMemory>
        ensures { OnOk result (Adds out.old.items out.new.items (rules.hidden (node_of e.now) ∷ [])) }
    {
        out.push(Owned::Hidden(owned_node(e)))?;
        Ok(())
    }

    /// Adds the slot of `?:`. One of type `void` has no value.
    fn push_chosen(&self, e: &TypedExpr, out: &mut Vec<Owned>) -> Result<(), NoMemory>
        ensures { OnOk result (Adds out.old.items out.new.items
            (rules.hidden_of (form_in self.now) (form_in self.now e.now.ty) (node_of e.now))) }
    {
        if e.ty.0 >= self.table.count() {
            return Ok(());
        }
        match self.table.get(e.ty) {
            CType::Void => Ok(()),
            CType::Int(_)
            | CType::ThreadId
            | CType::Mutex
            | CType::Cond
            | CType::Pointer(_)
            | CType::Array(_, _)
            | CType::Struct(_)
            | CType::Function { .. }
            | CType::Opaque(_) => self.push_hidden(e, out),
        }
    }

    /// Adds the object of an allocation.
    fn push_allocation(
        &self,
        e: &TypedExpr,
        ty: TypeId,
        one: bool,
        out: &mut Vec<Owned>,
    ) -> Result<(), NoMemory>
        ensures { OnOk result (Adds out.old.items out.new.items
            (rules.allocation (node_of e.now) ty one ∷ [])) }
    {
        out.push(Owned::Allocation(owned_node(e), ty, one))?;
        Ok(())
    }

    /// Adds what two expressions have.
    #[cycle(finds)]
    fn push_both(&self, a: &TypedExpr, b: &TypedExpr, out: &mut Vec<Owned>) -> Result<(), NoMemory>
        ensures { OnOk result (Adds out.old.items out.new.items
            (owned_here self.now a.now ++ owned_here self.now b.now)) }
    {
        self.push(a, out)?;
        self.push(b, out)
    }

    /// Adds what `&&` or `||` has: a slot, and what its operands have.
    #[cycle(finds)]
    fn push_deciding(
        &self,
        e: &TypedExpr,
        a: &TypedExpr,
        b: &TypedExpr,
        out: &mut Vec<Owned>,
    ) -> Result<(), NoMemory>
        ensures { OnOk result (Adds out.old.items out.new.items
            (rules.hidden (node_of e.now) ∷ (owned_here self.now a.now ++ owned_here self.now b.now))) }
    {
        self.push_hidden(e, out)?;
        self.push_both(a, b, out)
    }

    /// Adds what several expressions have.
    #[cycle(finds)]
    fn push_all(&self, list: &[TypedExpr], out: &mut Vec<Owned>) -> Result<(), NoMemory>
        ensures { OnOk result (Adds out.old.items out.new.items
            (rules.all_of (map (owned_here self.now) list.now))) }
    {
        for e in list {
            self.push(e, out)?;
        }
        Ok(())
    }

    /// Adds what an expression has, where there is one.
    #[cycle(finds)]
    fn push_boxed(&self, e: &Option<Boxed<TypedExpr>>, out: &mut Vec<Owned>) -> Result<(), NoMemory>
        ensures { OnOk result (Adds out.old.items out.new.items
            (rules.of_optional (option_map (owned_here self.now) e.now))) }
    {
        match e {
            Some(e) => self.push(e.get(), out),
            None => Ok(()),
        }
    }

    /// Adds what `?:` has: a slot but for `void`, and what its operands have.
    #[cycle(finds)]
    fn push_choice(
        &self,
        e: &TypedExpr,
        c: &TypedExpr,
        a: &TypedExpr,
        b: &TypedExpr,
        out: &mut Vec<Owned>,
    ) -> Result<(), NoMemory>
        ensures { OnOk result (Adds out.old.items out.new.items
            (rules.hidden_of (form_in self.now) (form_in self.now e.now.ty) (node_of e.now)
            ++ (owned_here self.now c.now ++ (owned_here self.now a.now ++ owned_here self.now b.now)))) }
    {
        self.push_chosen(e, out)?;
        self.push(c, out)?;
        self.push_both(a, b, out)
    }

    /// Adds what is called has.
    #[cycle(finds)]
    fn push_callee(&self, callee: &Callee, out: &mut Vec<Owned>) -> Result<(), NoMemory>
        ensures { OnOk result (Adds out.old.items out.new.items
            (callee_owned (form_in self.now) callee.now)) }
    {
        match callee {
            Callee::Function(_) => Ok(()),
            Callee::Pointer(function) => self.push(function.get(), out),
        }
    }

    /// Adds what a call of the library has, at the node of an expression.
    #[cycle(finds)]
    fn push_library(
        &self,
        call: &LibraryCall,
        e: &TypedExpr,
        out: &mut Vec<Owned>,
    ) -> Result<(), NoMemory>
        ensures { OnOk result (Adds out.old.items out.new.items
            (library_owned (form_in self.now) call.now (node_of e.now))) }
    {
        match call {
            LibraryCall::Create(a, _, b) => self.push_both(a.get(), b.get(), out),
            LibraryCall::Equal(a, b) => self.push_both(a.get(), b.get(), out),
            LibraryCall::Wait(a, b) => self.push_both(a.get(), b.get(), out),
            LibraryCall::Join(a) => self.push(a.get(), out),
            LibraryCall::Detach(a) => self.push(a.get(), out),
            LibraryCall::ExitThread(a) => self.push(a.get(), out),
            LibraryCall::Init(a) => self.push(a.get(), out),
            LibraryCall::Destroy(a) => self.push(a.get(), out),
            LibraryCall::Lock(a) => self.push(a.get(), out),
            LibraryCall::Unlock(a) => self.push(a.get(), out),
            LibraryCall::Signal(a) => self.push(a.get(), out),
            LibraryCall::Free(a) => self.push(a.get(), out),
            LibraryCall::Scan(a) => self.push(a.get(), out),
            LibraryCall::SelfId => Ok(()),
            LibraryCall::Allocate(ty, count, _) => {
                self.push_allocation(e, *ty, is_one(count), out)?;
                self.push_boxed(count, out)
            }
            LibraryCall::Exit(status) => self.push_boxed(status, out),
            LibraryCall::Print(format, args) => {
                self.push(format.get(), out)?;
                self.push_all(args.list(), out)
            }
            LibraryCall::Compute(args) => self.push_all(args.list(), out),
        }
    }

    /// Adds what an expression has, and what is inside it.
    #[cycle(finds)]
    pub fn push(&self, e: &TypedExpr, out: &mut Vec<Owned>) -> Result<(), NoMemory>
        ensures { OnOk result (Adds out.old.items out.new.items (owned_here self.now e.now)) }
    {
        match &e.form {
            TypedForm::Object(_) => Ok(()),
            TypedForm::Number(_) => Ok(()),
            TypedForm::Function(_) => Ok(()),
            TypedForm::Size(_) => Ok(()),
            TypedForm::Null => Ok(()),
            TypedForm::Text(bytes) => self.push_text(e, bytes.list(), out),
            TypedForm::Member(a, _) => self.push(a.get(), out),
            TypedForm::Arrow(a, _) => self.push(a.get(), out),
            TypedForm::Indirection(a) => self.push(a.get(), out),
            TypedForm::Paren(a) => self.push(a.get(), out),
            TypedForm::Address(a) => self.push(a.get(), out),
            TypedForm::Load(a) => self.push(a.get(), out),
            TypedForm::Decay(a) => self.push(a.get(), out),
            TypedForm::Convert(a) => self.push(a.get(), out),
            TypedForm::Discard(a) => self.push(a.get(), out),
            TypedForm::Unary(_, a) => self.push(a.get(), out),
            TypedForm::Step(_, _, a, _) => self.push(a.get(), out),
            TypedForm::Index(a, b) => self.push_both(a.get(), b.get(), out),
            TypedForm::Comma(a, b) => self.push_both(a.get(), b.get(), out),
            TypedForm::Assign(a, b) => self.push_both(a.get(), b.get(), out),
            TypedForm::Binary(_, a, b) => self.push_both(a.get(), b.get(), out),
            TypedForm::Compound(_, a, b, _) => self.push_both(a.get(), b.get(), out),
            TypedForm::And(a, b) => self.push_deciding(e, a.get(), b.get(), out),
            TypedForm::Or(a, b) => self.push_deciding(e, a.get(), b.get(), out),
            TypedForm::Choice(c, a, b) => self.push_choice(e, c.get(), a.get(), b.get(), out),
            TypedForm::Call(callee, args) => {
                self.push_callee(callee, out)?;
                self.push_all(args.list(), out)
            }
            TypedForm::Library(call) => self.push_library(call, e, out),
            TypedForm::Extern(_, args) => self.push_all(args.list(), out),
        }
    }

    /// Adds what an expression has, where there is one.
    fn push_optional(&self, e: &Option<TypedExpr>, out: &mut Vec<Owned>) -> Result<(), NoMemory>
        ensures { OnOk result (Adds out.old.items out.new.items (rules.owned_in (form_in self.now) e.now)) }
    {
        match e {
            Some(e) => self.push(e, out),
            None => Ok(()),
        }
    }

    /// Adds what the value of a part has.
    fn push_value(&self, value: &LocalValue, out: &mut Vec<Owned>) -> Result<(), NoMemory>
        ensures { OnOk result (Adds out.old.items out.new.items
            (rules.of_value (form_in self.now) value.now)) }
    {
        match value {
            LocalValue::Expr(e) => self.push(e, out),
            LocalValue::Text(_, _, _) | LocalValue::Ready => Ok(()),
        }
    }

    /// Adds what the values of parts have.
    fn push_parts(&self, parts: &[LocalPart], out: &mut Vec<Owned>) -> Result<(), NoMemory>
        ensures { OnOk result (Adds out.old.items out.new.items
            (rules.of_parts (form_in self.now) parts.now)) }
    {
        for part in parts {
            self.push_value(&part.value, out)?;
        }
        Ok(())
    }

    /// Adds what the initialisers of locals have.
    fn push_inits(&self, inits: &[LocalInit], out: &mut Vec<Owned>) -> Result<(), NoMemory>
        ensures { OnOk result (Adds out.old.items out.new.items
            (rules.of_inits (form_in self.now) inits.now)) }
    {
        for init in inits {
            self.push_parts(init.named.list(), out)?;
        }
        Ok(())
    }

    /// Adds what the pointers among the parts of an initialiser of static storage have.
    pub fn push_static(&self, parts: &[StaticPart], out: &mut Vec<Owned>) -> Result<(), NoMemory>
        ensures { OnOk result (Adds out.old.items out.new.items
            (rules.of_static_parts (form_in self.now) parts.now)) }
    {
        for part in parts {
            self.push_optional(&part.pointer, out)?;
        }
        Ok(())
    }

    /// Adds what the first part of a `for` has.
    fn push_first(&self, first: &TypedFirst, out: &mut Vec<Owned>) -> Result<(), NoMemory>
        ensures { OnOk result (Adds out.old.items out.new.items
            (rules.of_first (form_in self.now) first.now)) }
    {
        match first {
            TypedFirst::Expr(e) => self.push_optional(e, out),
            TypedFirst::Declare(inits) => self.push_inits(inits.list(), out),
        }
    }

    /// Adds what an item of a block has.
    #[cycle(finds_in)]
    fn push_item(&self, item: &TypedItem, out: &mut Vec<Owned>) -> Result<(), NoMemory>
        ensures { OnOk result (Adds out.old.items out.new.items (item_owned (form_in self.now) item.now)) }
    {
        match item {
            TypedItem::Declare(inits) => self.push_inits(inits.list(), out),
            TypedItem::Stmt(s) => self.push_statement(s, out),
        }
    }

    /// Adds what the items of a block have.
    #[cycle(finds_in)]
    fn push_items(&self, items: &[TypedItem], out: &mut Vec<Owned>) -> Result<(), NoMemory>
        ensures { OnOk result (Adds out.old.items out.new.items
            (rules.all_of (map (item_owned (form_in self.now)) items.now))) }
    {
        for item in items {
            self.push_item(item, out)?;
        }
        Ok(())
    }

    /// Adds what the second statement of an `if` has, where there is one.
    #[cycle(finds_in)]
    fn push_otherwise(
        &self,
        s: &Option<Boxed<TypedStmt>>,
        out: &mut Vec<Owned>,
    ) -> Result<(), NoMemory>
        ensures { OnOk result (Adds out.old.items out.new.items
            (rules.of_optional (option_map (rules.owned_by (form_in self.now)) s.now))) }
    {
        match s {
            Some(s) => self.push_statement(s.get(), out),
            None => Ok(()),
        }
    }

    /// Adds what a statement has.
    #[cycle(finds_in)]
    pub fn push_statement(&self, s: &TypedStmt, out: &mut Vec<Owned>) -> Result<(), NoMemory>
        ensures { OnOk result (Adds out.old.items out.new.items (rules.owned_by (form_in self.now) s.now)) }
    {
        match &s.form {
            TypedStmtForm::Label(a) => self.push_statement(a.get(), out),
            TypedStmtForm::Case(a) => self.push_statement(a.get(), out),
            TypedStmtForm::Default(a) => self.push_statement(a.get(), out),
            TypedStmtForm::Block(items) => self.push_items(items.list(), out),
            TypedStmtForm::Do(e) => self.push_optional(e, out),
            TypedStmtForm::Return(e) => self.push_optional(e, out),
            TypedStmtForm::If(c, a, b) => {
                self.push(c, out)?;
                self.push_statement(a.get(), out)?;
                self.push_otherwise(b, out)
            }
            TypedStmtForm::Switch(v, _, _, a) => {
                self.push(v, out)?;
                self.push_statement(a.get(), out)
            }
            TypedStmtForm::While(c, a) => {
                self.push(c, out)?;
                self.push_statement(a.get(), out)
            }
            TypedStmtForm::Until(a, c) => {
                self.push_statement(a.get(), out)?;
                self.push(c, out)
            }
            TypedStmtForm::For(first, c, step, a) => {
                self.push_first(first, out)?;
                self.push_optional(c, out)?;
                self.push_optional(step, out)?;
                self.push_statement(a.get(), out)
            }
            TypedStmtForm::Goto(_) => Ok(()),
            TypedStmtForm::Continue => Ok(()),
            TypedStmtForm::Break => Ok(()),
        }
    }
}
