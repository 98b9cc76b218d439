//! A file's name, kept in place.
ghost use Rattle.std.specs.Prelude.{◌≡◌, ◌≤◌, length};

use arrayvec::ArrayString;
use lk_base::LONGEST_NAME;

/// A text of at most 255 bytes, which takes no memory.
pub(crate) type ShortName = ArrayString<LONGEST_NAME>;

/// The name, kept in place.
pub(crate) fn short_name(name: &str) -> ShortName
    requires { length name.now ≤ 255 }
    ensures { result.bytes ≡ name.now }
{
    let mut short = ShortName::new();
    short.push_str(name);
    short
}
