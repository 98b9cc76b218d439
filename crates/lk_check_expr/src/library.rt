//! The functions of the library (POSIX, `pthread.h`; C99 7.19, 7.20): their names, and how each
//! of their arguments is passed.
ghost use Rattle.std.specs.Prelude.{◌≡◌, None, map};
ghost use Rattle.lk_typed.specs.Calls.{asks_of, passes_by};
ghost use Rattle.lk_typed.specs.Library as spec;
ghost use Rattle.lk_typed.specs.Meaning.{IsReady};
ghost use Rattle.lk_types.specs.Table.{Table};
ghost use Rattle.lk_check_expr.specs.Functions.{IsPassing, asked_by, function_named, parameter_in, row_of, rows_of, spelling};

use lk_base::{Code, Name};
use lk_typed::ExprType;
use lk_types::TypeId;

/// A function of the library.
#[derive(Clone, Copy)]
pub enum LibraryFunction {
    /// `pthread_create`
    Create,
    /// `pthread_join`
    Join,
    /// `pthread_detach`
    Detach,
    /// `pthread_exit`
    ExitThread,
    /// `pthread_self`
    SelfId,
    /// `pthread_equal`
    Equal,
    /// `pthread_mutex_init`
    MutexInit,
    /// `pthread_mutex_destroy`
    MutexDestroy,
    /// `pthread_mutex_lock`
    MutexLock,
    /// `pthread_mutex_unlock`
    MutexUnlock,
    /// `pthread_cond_init`
    CondInit,
    /// `pthread_cond_destroy`
    CondDestroy,
    /// `pthread_cond_signal`
    CondSignal,
    /// `pthread_cond_broadcast`
    CondBroadcast,
    /// `pthread_cond_wait`
    CondWait,
    /// `malloc`
    Malloc,
    /// `calloc`
    Calloc,
    /// `free`
    Free,
    /// `exit`
    Exit,
    /// `abort`
    Abort,
    /// `puts`
    Puts,
    /// `perror`
    Perror,
    /// `atoi`
    Atoi,
    /// `printf`
    Printf,
    /// `putchar`
    Putchar,
    /// `getchar`
    Getchar,
    /// `rand`
    Rand,
    /// `sleep`
    Sleep,
}

/// How an argument of a library function is passed: most are converted to a type.
#[derive(Clone, Copy)]
pub enum Parameter {
    /// To `int`.
    Int,
    /// To `unsigned int`.
    UnsignedInt,
    /// To `size_t`.
    Count,
    /// To `pthread_t`.
    Thread,
    /// To `pthread_t *`.
    ToThread,
    /// To `pthread_mutex_t *`.
    ToMutex,
    /// To `pthread_cond_t *`.
    ToCond,
    /// To `char *`.
    ToText,
    /// To `void *`.
    ToAnything,
    /// Not converted: a null pointer constant in place of a `pthread_attr_t *`.
    NoThreadAttributes,
    /// Not converted: a null pointer constant in place of a `pthread_mutexattr_t *`.
    NoMutexAttributes,
    /// Not converted: a null pointer constant in place of a `pthread_condattr_t *`.
    NoCondAttributes,
    /// Not converted: a null pointer constant in place of a `void **`.
    NoResult,
    /// Not converted: the name of a start routine.
    Routine,
    /// To `size_t`: the size of an allocation.
    Size,
}

/// How an argument is passed.
#[derive(Clone, Copy)]
pub enum Passing {
    /// Converted to this type.
    Converted(ExprType),
    /// Not converted: it must be a null pointer constant, else this code holds.
    NullFor(Code),
    /// Not converted: it must be the name of a start routine.
    Routine,
    /// Converted to `size_t`: the size of an allocation.
    Size,
}

/// What a call asks beside its arguments.
#[derive(Clone, Copy)]
pub enum Asks {
    /// Nothing.
    NothingMore,
    /// Its first argument is a format.
    Format,
    /// Its argument is the size of one object or of an array.
    Size,
    /// Its second argument is the size of an element.
    ElementSize,
}

const LIBRARY: [LibraryFunction; 28] = [
    LibraryFunction::Create,
    LibraryFunction::Join,
    LibraryFunction::Detach,
    LibraryFunction::ExitThread,
    LibraryFunction::SelfId,
    LibraryFunction::Equal,
    LibraryFunction::MutexInit,
    LibraryFunction::MutexDestroy,
    LibraryFunction::MutexLock,
    LibraryFunction::MutexUnlock,
    LibraryFunction::CondInit,
    LibraryFunction::CondDestroy,
    LibraryFunction::CondSignal,
    LibraryFunction::CondBroadcast,
    LibraryFunction::CondWait,
    LibraryFunction::Malloc,
    LibraryFunction::Calloc,
    LibraryFunction::Free,
    LibraryFunction::Exit,
    LibraryFunction::Abort,
    LibraryFunction::Puts,
    LibraryFunction::Perror,
    LibraryFunction::Atoi,
    LibraryFunction::Printf,
    LibraryFunction::Putchar,
    LibraryFunction::Getchar,
    LibraryFunction::Rand,
    LibraryFunction::Sleep,
];

const CREATE: &[Parameter] = &[
    Parameter::ToThread,
    Parameter::NoThreadAttributes,
    Parameter::Routine,
    Parameter::ToAnything,
];

const JOIN: &[Parameter] = &[Parameter::Thread, Parameter::NoResult];

const A_THREAD: &[Parameter] = &[Parameter::Thread];

const TWO_THREADS: &[Parameter] = &[Parameter::Thread, Parameter::Thread];

const MUTEX_INIT: &[Parameter] = &[Parameter::ToMutex, Parameter::NoMutexAttributes];

const A_MUTEX: &[Parameter] = &[Parameter::ToMutex];

const COND_INIT: &[Parameter] = &[Parameter::ToCond, Parameter::NoCondAttributes];

const A_COND: &[Parameter] = &[Parameter::ToCond];

const COND_WAIT: &[Parameter] = &[Parameter::ToCond, Parameter::ToMutex];

const A_SIZE: &[Parameter] = &[Parameter::Size];

const COUNT_AND_SIZE: &[Parameter] = &[Parameter::Count, Parameter::Size];

const ANYTHING: &[Parameter] = &[Parameter::ToAnything];

const AN_INT: &[Parameter] = &[Parameter::Int];

const AN_UNSIGNED: &[Parameter] = &[Parameter::UnsignedInt];

const A_TEXT: &[Parameter] = &[Parameter::ToText];

const NOTHING: &[Parameter] = &[];

impl Parameter {
    /// How it is passed.
    pub fn passing(self) -> Passing
        ensures { (table : Table) → IsReady table → IsPassing table result (parameter_in self) }
    {
        match self {
            Parameter::Int => Passing::Converted(ExprType::Listed(TypeId::INT)),
            Parameter::UnsignedInt => Passing::Converted(ExprType::Listed(TypeId::UNSIGNED)),
            Parameter::Count => Passing::Converted(ExprType::Listed(TypeId::SIZE)),
            Parameter::Thread => Passing::Converted(ExprType::Listed(TypeId::THREAD)),
            Parameter::ToThread => Passing::Converted(ExprType::PointerTo(TypeId::THREAD)),
            Parameter::ToMutex => Passing::Converted(ExprType::PointerTo(TypeId::MUTEX)),
            Parameter::ToCond => Passing::Converted(ExprType::PointerTo(TypeId::COND)),
            Parameter::ToText => Passing::Converted(ExprType::PointerTo(TypeId::CHAR)),
            Parameter::ToAnything => Passing::Converted(ExprType::PointerTo(TypeId::VOID)),
            Parameter::NoThreadAttributes
            | Parameter::NoMutexAttributes
            | Parameter::NoCondAttributes => Passing::NullFor(Code::Attribute),
            Parameter::NoResult => Passing::NullFor(Code::JoinResult),
            Parameter::Routine => Passing::Routine,
            Parameter::Size => Passing::Size,
        }
    }
}

impl LibraryFunction {
    /// The function's name.
    pub fn name(self) -> &'static str
        ensures { result.now ≡ spelling self }
    {
        match self {
            LibraryFunction::Create => "pthread_create",
            LibraryFunction::Join => "pthread_join",
            LibraryFunction::Detach => "pthread_detach",
            LibraryFunction::ExitThread => "pthread_exit",
            LibraryFunction::SelfId => "pthread_self",
            LibraryFunction::Equal => "pthread_equal",
            LibraryFunction::MutexInit => "pthread_mutex_init",
            LibraryFunction::MutexDestroy => "pthread_mutex_destroy",
            LibraryFunction::MutexLock => "pthread_mutex_lock",
            LibraryFunction::MutexUnlock => "pthread_mutex_unlock",
            LibraryFunction::CondInit => "pthread_cond_init",
            LibraryFunction::CondDestroy => "pthread_cond_destroy",
            LibraryFunction::CondSignal => "pthread_cond_signal",
            LibraryFunction::CondBroadcast => "pthread_cond_broadcast",
            LibraryFunction::CondWait => "pthread_cond_wait",
            LibraryFunction::Malloc => "malloc",
            LibraryFunction::Calloc => "calloc",
            LibraryFunction::Free => "free",
            LibraryFunction::Exit => "exit",
            LibraryFunction::Abort => "abort",
            LibraryFunction::Puts => "puts",
            LibraryFunction::Perror => "perror",
            LibraryFunction::Atoi => "atoi",
            LibraryFunction::Printf => "printf",
            LibraryFunction::Putchar => "putchar",
            LibraryFunction::Getchar => "getchar",
            LibraryFunction::Rand => "rand",
            LibraryFunction::Sleep => "sleep",
        }
    }

    /// The function whose name this is.
    #[tactic(auto, unfolding(crate::specs::Functions::function_named))]
    fn named(name: &Name) -> Option<LibraryFunction>
        ensures { result ≡ function_named name.now }
    {
        LIBRARY
            .iter()
            .copied()
            .find(|function| function.name().as_bytes() == name.bytes())
    }

    /// The function of this name, or nothing where the name is none of the library's functions.
    pub fn of(name: &Name) -> Option<LibraryFunction>
        ensures { spec.library_function name.now ≡ row_of result }
    {
        LibraryFunction::named(name)
    }

    /// How its arguments are passed, in their order.
    #[tactic(auto, unfolding(lk_typed::specs::Library::library))]
    pub fn parameters(self) -> &'static [Parameter]
        ensures { map parameter_in result.now ≡ passes_by (rows_of self) None }
    {
        match self {
            LibraryFunction::Create => CREATE,
            LibraryFunction::Join => JOIN,
            LibraryFunction::Detach => A_THREAD,
            LibraryFunction::Equal => TWO_THREADS,
            LibraryFunction::MutexInit => MUTEX_INIT,
            LibraryFunction::MutexDestroy
            | LibraryFunction::MutexLock
            | LibraryFunction::MutexUnlock => A_MUTEX,
            LibraryFunction::CondInit => COND_INIT,
            LibraryFunction::CondDestroy
            | LibraryFunction::CondSignal
            | LibraryFunction::CondBroadcast => A_COND,
            LibraryFunction::CondWait => COND_WAIT,
            LibraryFunction::Malloc => A_SIZE,
            LibraryFunction::Calloc => COUNT_AND_SIZE,
            LibraryFunction::ExitThread | LibraryFunction::Free => ANYTHING,
            LibraryFunction::Exit | LibraryFunction::Putchar => AN_INT,
            LibraryFunction::Sleep => AN_UNSIGNED,
            LibraryFunction::Puts
            | LibraryFunction::Perror
            | LibraryFunction::Atoi
            | LibraryFunction::Printf => A_TEXT,
            LibraryFunction::SelfId
            | LibraryFunction::Abort
            | LibraryFunction::Getchar
            | LibraryFunction::Rand => NOTHING,
        }
    }

    /// What a call of it asks beside its arguments.
    #[tactic(auto, unfolding(lk_typed::specs::Library::library))]
    pub fn asks(self) -> Asks
        ensures { asked_by result ≡ asks_of (rows_of self) }
    {
        match self {
            LibraryFunction::Printf => Asks::Format,
            LibraryFunction::Malloc => Asks::Size,
            LibraryFunction::Calloc => Asks::ElementSize,
            LibraryFunction::Create
            | LibraryFunction::Join
            | LibraryFunction::Detach
            | LibraryFunction::ExitThread
            | LibraryFunction::SelfId
            | LibraryFunction::Equal
            | LibraryFunction::MutexInit
            | LibraryFunction::MutexDestroy
            | LibraryFunction::MutexLock
            | LibraryFunction::MutexUnlock
            | LibraryFunction::CondInit
            | LibraryFunction::CondDestroy
            | LibraryFunction::CondSignal
            | LibraryFunction::CondBroadcast
            | LibraryFunction::CondWait
            | LibraryFunction::Free
            | LibraryFunction::Exit
            | LibraryFunction::Abort
            | LibraryFunction::Puts
            | LibraryFunction::Perror
            | LibraryFunction::Atoi
            | LibraryFunction::Putchar
            | LibraryFunction::Getchar
            | LibraryFunction::Rand
            | LibraryFunction::Sleep => Asks::NothingMore,
        }
    }
}
