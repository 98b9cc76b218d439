//! The predeclared words: the types of POSIX threads, `size_t`, and the words that initialise
//! mutexes and condition variables.
ghost use Rattle.std.specs.Prelude.{◌≡◌, OnOk};
ghost use Rattle.lk_typed.specs.Library.{predeclared_types};
ghost use Rattle.lk_typed.specs.Meaning.{IsReady};
ghost use Rattle.lk_types.specs.Table.{Table};
ghost use Rattle.lk_predeclared.specs.Scope.{AddsName, AddsNames, code_declared};
ghost use Rattle.lk_predeclared.specs.Words.{word_meaning, word_name};

use lk_base::{Name, NoMemory};
use lk_names::Names;
use lk_typed::{Declared, Defines, Linkage, Meaning};
use lk_types::TypeId;
use std::alloc::Global;

/// A predeclared word.
#[derive(Clone, Copy)]
enum Word {
    /// `pthread_t`
    Thread,
    /// `pthread_mutex_t`
    Mutex,
    /// `pthread_cond_t`
    Cond,
    /// `size_t`
    Size,
    /// `pthread_attr_t`
    ThreadAttributes,
    /// `pthread_mutexattr_t`
    MutexAttributes,
    /// `pthread_condattr_t`
    CondAttributes,
    /// `PTHREAD_MUTEX_INITIALIZER`
    MutexInitialiser,
    /// `PTHREAD_COND_INITIALIZER`
    CondInitialiser,
}

/// All of them.
const WORDS: [Word; 9] = [
    Word::Thread,
    Word::Mutex,
    Word::Cond,
    Word::Size,
    Word::ThreadAttributes,
    Word::MutexAttributes,
    Word::CondAttributes,
    Word::MutexInitialiser,
    Word::CondInitialiser,
];

impl Word {
    /// How it is written.
    fn name(self) -> &'static str
        ensures { result.now ≡ word_name self }
    {
        match self {
            Word::Thread => "pthread_t",
            Word::Mutex => "pthread_mutex_t",
            Word::Cond => "pthread_cond_t",
            Word::Size => "size_t",
            Word::ThreadAttributes => "pthread_attr_t",
            Word::MutexAttributes => "pthread_mutexattr_t",
            Word::CondAttributes => "pthread_condattr_t",
            Word::MutexInitialiser => "PTHREAD_MUTEX_INITIALIZER",
            Word::CondInitialiser => "PTHREAD_COND_INITIALIZER",
        }
    }

    /// What it stands for.
    fn meaning(self) -> Meaning
        ensures { result ≡ word_meaning self }
    {
        match self {
            Word::Thread => Meaning::Typedef(TypeId::THREAD),
            Word::Mutex => Meaning::Typedef(TypeId::MUTEX),
            Word::Cond => Meaning::Typedef(TypeId::COND),
            Word::Size => Meaning::Typedef(TypeId::SIZE),
            Word::ThreadAttributes => Meaning::Typedef(TypeId::THREAD_ATTRIBUTES),
            Word::MutexAttributes => Meaning::Typedef(TypeId::MUTEX_ATTRIBUTES),
            Word::CondAttributes => Meaning::Typedef(TypeId::COND_ATTRIBUTES),
            Word::MutexInitialiser => Meaning::InitialiserWord(TypeId::MUTEX),
            Word::CondInitialiser => Meaning::InitialiserWord(TypeId::COND),
        }
    }
}

/// Declares a name that no node declares. Where no memory is found all is as before.
pub(crate) fn declare(
    alloc: Global,
    names: &mut Names,
    word: &str,
    meaning: Meaning,
    linkage: Linkage,
    defines: Defines,
) -> Result<(), NoMemory>
    ensures { OnOk result (AddsName names.old names.new (code_declared word.now meaning linkage defines)) }
{
    let Ok(name) = Name::from_bytes(alloc, word.as_bytes()) else {
        return Err(NoMemory);
    };
    names.declare(Declared {
        name,
        meaning,
        linkage,
        defines,
        ordinal: 0,
    })
}

/// Declares the predeclared words.
pub(crate) fn declare_words(alloc: Global, names: &mut Names) -> Result<(), NoMemory>
    ensures { OnOk result ((table : Table) → IsReady table →
        AddsNames table names.old table names.new predeclared_types) }
{
    for word in &WORDS {
        declare(
            alloc,
            names,
            word.name(),
            word.meaning(),
            Linkage::None,
            Defines::Nothing,
        )?;
    }
    Ok(())
}
