//! What is in scope, as lk_scopes keeps it.
ghost use Rattle.std.specs.Prelude.{◌≡◌, drop};
ghost use Rattle.std.specs.Option.{option_copied};
ghost use Rattle.lk_typed.specs.Env.{latest, is_name};

use lk_base::Name;
use lk_scopes::{Declarations, Named};
use lk_typed::{Declared, Tag};
use std::marker::Model;

/// What tells its name.
pub trait TellsName {
    ghost use Rattle.std.specs.Prelude.{List, ℕ};

    ghost told_name: { Self → List ℕ };

    /// Its name.
    fn told_name(&self) -> &Name
        ensures { result.now ≡ told_name self.now };
}

impl TellsName for Declared {
    ghost told_name = { λ declared. declared.name };

    fn told_name(&self) -> &Name {
        &self.name
    }
}

impl TellsName for Tag {
    ghost told_name = { λ tag. tag.name };

    fn told_name(&self) -> &Name {
        &self.name
    }
}

/// What is declared in a scope. A contract sees it as this alone.
#[derive(Drop)]
pub struct Scoped<T> {
    pub item: T,
}

impl<T> Model for Scoped<T> {
    ghost Value = { T };

    ghost coded = { T.code };

    ghost view = { λ scoped. scoped.item };
}

impl<T: TellsName> Named for Scoped<T> {
    ghost name_of = { λ item. T.told_name item };

    fn name(&self) -> &Name {
        self.item.told_name()
    }
}

/// The latest one of a name.
pub fn latest_of<'d, T: TellsName>(
    declared: &'d Declarations<Scoped<T>>,
    name: &Name,
) -> Option<&'d T>
    ensures { option_copied result ≡ latest (λ item. is_name (T.told_name item) name.now) declared.now }
{
    match declared.look_up(name.bytes()) {
        Some(scoped) => Some(&scoped.item),
        None => None,
    }
}

/// The latest one of a name, of those behind the first `base`.
pub fn latest_behind<'d, T: TellsName>(
    declared: &'d Declarations<Scoped<T>>,
    base: usize,
    name: &Name,
) -> Option<&'d T>
    ensures { option_copied result ≡
        latest (λ item. is_name (T.told_name item) name.now) (drop base declared.now) }
{
    match declared.look_up_behind(base, name.bytes()) {
        Some(scoped) => Some(&scoped.item),
        None => None,
    }
}
