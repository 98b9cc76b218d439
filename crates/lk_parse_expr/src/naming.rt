//! Whether a declarator has a name.

ghost use Rattle.std.specs.Prelude.{◌≡◌};
ghost use Rattle.lk_parse_expr.specs.Heads as spec;

use lk_base::{Name, Seq};

/// Whether a declarator has a name, where it stands.
#[derive(Clone, Copy, PartialEq, Eq)]
pub enum Naming {
    /// It has one: in a declaration and in a member.
    Named,
    /// It has none: in a type name.
    Abstract,
    /// It may have one: in a parameter.
    Either,
}

impl Naming {
    /// Whether a declarator may have a name.
    pub fn may_name(self) -> bool
        ensures { result ≡ spec.may_name self }
    {
        match self {
            Naming::Named => true,
            Naming::Abstract => false,
            Naming::Either => true,
        }
    }

    /// Whether a declarator may be without a name.
    pub fn may_omit(self) -> bool
        ensures { result ≡ spec.may_omit self }
    {
        match self {
            Naming::Named => false,
            Naming::Abstract => true,
            Naming::Either => true,
        }
    }
}

/// What a declarator declares, by its name and the part beside the name.
#[derive(Drop)]
pub enum Head {
    /// It has no name.
    Abstract,
    /// It has this name, and no part beside it.
    Bare(Name),
    /// Its part beside this name is a function, whose parameters declare these names.
    Function(Name, Seq<(Name, bool)>),
    /// Its part beside this name is a pointer or an array.
    Other(Name),
}

impl Head {
    /// What is declared with a `*` before it or an array behind it.
    pub fn other(self) -> Head
        ensures { result ≡ spec.other self }
    {
        match self {
            Head::Abstract => Head::Abstract,
            Head::Bare(name) => Head::Other(name),
            Head::Function(name, parameters) => Head::Function(name, parameters),
            Head::Other(name) => Head::Other(name),
        }
    }

    /// What is declared with parameters behind it that declare these names.
    pub fn called(self, parameters: Seq<(Name, bool)>) -> Head
        ensures { result ≡ spec.called parameters self }
    {
        match self {
            Head::Abstract => Head::Abstract,
            Head::Bare(name) => Head::Function(name, parameters),
            Head::Function(name, first) => Head::Function(name, first),
            Head::Other(name) => Head::Other(name),
        }
    }
}
