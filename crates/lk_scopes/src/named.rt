//! What has a name.
ghost use Rattle.std.specs.Prelude.{◌≡◌};

use lk_base::Name;

/// What is declared by a name.
pub trait Named {
    ghost use Rattle.std.specs.Prelude.{List, ℕ};

    ghost name_of: { Self → List ℕ };

    /// Its name.
    fn name(&self) -> &Name
        ensures { result.now ≡ name_of self.now };
}

/// A name with what is known of it.
impl<V> Named for (Name, V) {
    ghost name_of = { λ named. named.0 };

    fn name(&self) -> &Name {
        &self.0
    }
}
