//! Roots: what holds the objects of a program.
ghost use Rattle.std.specs.Prelude.{◌≡◌};
ghost use Rattle.lk_facts.specs.Program as spec;

use lk_base::{Name, Seq, Spot};
use lk_types::TypeId;

/// What kind of object a root stands for.
#[derive(Clone, Copy)]
pub enum RootKind {
    /// An object of external linkage.
    Global,
    /// Another object of static storage.
    Static,
    /// An object of a function's frame.
    Local,
    /// What one point allocates: one object, or an array.
    Heap {
        /// Whether it is one object.
        one: bool,
    },
    /// A string literal.
    Text,
    /// The array of the pointers to main's arguments.
    Argv,
    /// The strings of main's arguments.
    Args,
    /// A function.
    Function,
}

impl RootKind {
    /// Whether it is the strings of main's arguments.
    pub fn is_args(self) -> bool
        ensures { result ≡ spec.is_args self }
    {
        match self {
            RootKind::Args => true,
            RootKind::Global
            | RootKind::Static
            | RootKind::Local
            | RootKind::Heap { .. }
            | RootKind::Text
            | RootKind::Argv
            | RootKind::Function => false,
        }
    }

    /// Whether it is the array of the pointers to main's arguments.
    pub fn is_argv(self) -> bool
        ensures { result ≡ spec.is_argv self }
    {
        match self {
            RootKind::Argv => true,
            RootKind::Global
            | RootKind::Static
            | RootKind::Local
            | RootKind::Heap { .. }
            | RootKind::Text
            | RootKind::Args
            | RootKind::Function => false,
        }
    }
}

/// A root: what is declared or allocated at one place of the program.
#[derive(Drop)]
pub struct Root {
    /// What kind of object it stands for.
    pub kind: RootKind,
    /// Its type. An array whose length is that of each object has no size.
    pub ty: TypeId,
    /// The place of the name in its declarator, or of the first token of an allocating call.
    pub spot: Spot,
    /// Its name.
    pub name: Name,
    /// The function that it belongs to, where it belongs to one; of a function its own number.
    pub function: Option<u32>,
    /// The point that allocates it, where one does.
    pub point: Option<u32>,
    /// The bytes of a text, its closing zero too; of any other root none.
    pub bytes: Seq<u8>,
}

/// What holds a pointer.
#[derive(Clone, Copy, PartialEq, Eq, Hash)]
pub enum Holder {
    /// A root.
    Root(u32),
    /// A function and the number of a slot of its frame: a local or parameter whose address isn't taken.
    Slot(u32, u32),
    /// The result of a function.
    Result(u32),
    /// A point that gives a value.
    Point(u32),
}
