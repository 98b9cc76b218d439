//! Formats of `printf` (C99 7.19.6.1).
ghost use Rattle.std.specs.Prelude.{◌≡◌};
ghost use Rattle.std.specs.Option.{option_map};
ghost use Rattle.lk_typed.specs.Calls as spec;
ghost use Rattle.lk_check_expr.specs.Formats.{scanned_in};

/// The flags, digits, points and lengths of a conversion specification.
const FLAGS: &[u8] = b"-+ #0123456789.*hljzt";

/// Where a byte of a format stands.
#[derive(Clone, Copy)]
enum Scanned {
    /// Outside a conversion specification.
    Plain,
    /// Directly behind its `%`.
    BehindPercent,
    /// Behind further flags, digits, points and lengths of it.
    BehindFlags,
}

/// Whether it may stand between `%` and the letter of a conversion.
fn is_flag(byte: u8) -> bool
    ensures { result ≡ spec.is_flag byte }
{
    FLAGS.contains(&byte)
}

/// Where the byte behind this one stands; nothing where it is an `n` to which a `%` leads.
fn behind(state: Scanned, byte: u8) -> Option<Scanned>
    ensures { option_map scanned_in result ≡ spec.behind_flag (scanned_in state) byte }
{
    let flag = is_flag(byte);
    match state {
        Scanned::Plain if byte == b'%' => Some(Scanned::BehindPercent),
        Scanned::BehindPercent | Scanned::BehindFlags if byte == b'n' => None,
        Scanned::BehindFlags if byte == b'%' => Some(Scanned::BehindPercent),
        Scanned::BehindPercent | Scanned::BehindFlags if flag => Some(Scanned::BehindFlags),
        Scanned::Plain | Scanned::BehindPercent | Scanned::BehindFlags => Some(Scanned::Plain),
    }
}

/// Whether a text is a format without `%n`: no `%` of it leads to an `n`.
pub(crate) fn is_format(bytes: &[u8]) -> bool
    ensures { result ≡ spec.is_format bytes.now }
{
    let mut state = Scanned::Plain;
    for byte in bytes {
        match behind(state, *byte) {
            Some(next) => state = next,
            None => return false,
        }
    }
    true
}
