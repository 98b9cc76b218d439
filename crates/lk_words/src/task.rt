//! What a command names.
ghost use Rattle.std.specs.Prelude.{◌≡◌};
ghost use Rattle.std.specs.Option.{option_map};
ghost use Rattle.clap.specs.Words.{kind_of};
ghost use Rattle.clap.specs.declared.error.kind.ErrorKind.TheVariants.{OutOfMemory};
ghost use Rattle.lk_words.specs.Seen.{seen_task};
ghost use Rattle.lk_words.specs.Words.{beside};
ghost use Rattle.lk_words.specs.declared.task.WordsFault.TheVariants.{Usage};

use clap::Error;
use clap::error::ErrorKind;
use std::alloc::{AllocError, AllocFailed};

/// What is done with sources.
#[derive(Clone, Copy)]
pub enum Task<'a> {
    /// They are checked for races.
    Check,
    /// The order of their mutexes is told.
    Order,
    /// A run of them is played.
    Play {
        /// The file of its schedule.
        schedule: &'a str,
    },
}

impl<'a> Task<'a> {
    /// The file that the task reads beside the sources, where there is one.
    pub fn beside(&self) -> Option<&'a str>
        ensures { option_map (λ name. name.now) result ≡ beside (seen_task self.now) }
    {
        match self {
            Task::Check | Task::Order => None,
            Task::Play { schedule } => Some(schedule),
        }
    }
}

/// What a command names, as the words have it.
#[derive(Drop)]
pub struct Command<'a> {
    /// What is done with the sources.
    pub task: Task<'a>,
    /// The file of `--externs`, where there is one.
    pub externs: Option<&'a str>,
    /// The sources, in their order.
    pub files: Vec<&'a str>,
}

/// Why words give no command.
#[derive(Clone, Copy)]
pub enum WordsFault {
    /// They spell none.
    Usage,
    /// No memory was found to read them.
    NoMemory,
}

impl From<AllocError> for WordsFault {
    ghost use Rattle.std.specs.Prelude.{◌≡◌};
    ghost use Rattle.lk_words.specs.declared.task.WordsFault.TheVariants.{NoMemory};

    ghost from_gives = { λ _ fault. fault ≡ NoMemory };

    fn from(_error: AllocError) -> WordsFault {
        WordsFault::NoMemory
    }
}

impl<T: Drop> From<AllocFailed<T>> for WordsFault {
    ghost use Rattle.std.specs.Prelude.{◌≡◌};
    ghost use Rattle.lk_words.specs.declared.task.WordsFault.TheVariants.{NoMemory};

    ghost from_gives = { λ _ fault. fault ≡ NoMemory };

    fn from(_error: AllocFailed<T>) -> WordsFault {
        WordsFault::NoMemory
    }
}

/// What an error of `clap` says of the words.
pub(crate) fn fault_of(error: &Error) -> WordsFault
    ensures { result ≡ Usage → kind_of error.now ≡ OutOfMemory → ⊥ }
{
    if error.kind() == ErrorKind::OutOfMemory {
        WordsFault::NoMemory
    } else {
        WordsFault::Usage
    }
}
