//! Bytes of a source, as the name that they would make.
ghost use Rattle.std.specs.Prelude.{nat_eq};
ghost use Rattle.std.specs.Cmp.Lexicographic.{pointwise, bytes_decides, nat_list_eq_equiv};
ghost use Rattle.std.specs.Hash as fed;
ghost use Rattle.std.proofs.Common.{ap};

use indexmap::Equivalent;
use lk_base::Name;

/// Bytes by which a name is looked up, so that no name has to be made of them.
#[derive(Clone, Copy, PartialEq, Eq, Hash)]
pub struct Bytes<'b> {
    /// The bytes.
    pub bytes: &'b [u8],
}

impl<'b> Equivalent<Name> for Bytes<'b> {
    ghost equivalent = { λ word name. pointwise nat_eq word.bytes.now name };

    ghost respects_hash = { λ word name same. ap (fed.slice fed.u8) ((bytes_decides word.bytes.now name).0 same) };

    ghost respects_eq = { λ word x y. nat_list_eq_equiv.congr word.bytes.now x y };

    fn equivalent(&self, name: &Name) -> bool {
        self.bytes == name.bytes()
    }
}
