//! A place in a source, as the lexer counts it.
ghost use Rattle.std.specs.Prelude.{◌≡◌, ◌+◌, ◌≤◌, length};
ghost use Rattle.lk_lex.specs.Tokens as spec;
ghost use Rattle.lk_lex.specs.Lengths.{IsBounded};

use crate::bytes::is_blank;
use lk_base::Spot;

/// A place in a source.
#[derive(Clone, Copy)]
pub struct Place {
    /// The place of the byte.
    pub spot: Spot,
    /// The place of the first byte of the next line.
    pub next: Spot,
    /// The number of bytes before it.
    pub at: u32,
    /// Whether only blanks stand before it on its line.
    pub fresh: bool,
}

/// The place of a source's first byte.
pub fn start_of(own: u32) -> Place
    ensures { result ≡ spec.start_of own }
{
    Place {
        spot: Spot {
            file: own,
            line: 1,
            col: 1,
        },
        next: Spot {
            file: own,
            line: 2,
            col: 1,
        },
        at: 0,
        fresh: true,
    }
}

/// The place after a byte.
fn after_byte(place: Place, byte: u8) -> Place
    requires bounded { IsBounded place }
    requires fits { place.at + 1 ≤ 1048576 }
    ensures { result ≡ spec.after_byte place byte }
{
    let Place {
        spot,
        next,
        at,
        fresh,
    } = place;
    if byte == b'\n' {
        return Place {
            spot: next,
            next: Spot {
                file: next.file,
                line: next.line + 1,
                col: next.col,
            },
            at: at + 1,
            fresh: true,
        };
    }
    Place {
        spot: Spot {
            file: spot.file,
            line: spot.line,
            col: spot.col + 1,
        },
        next,
        at: at + 1,
        fresh: fresh && is_blank(byte),
    }
}

/// The place after these bytes.
pub fn after(mut place: Place, bytes: &[u8]) -> Place
    requires bounded { IsBounded place }
    requires fits { place.at + length bytes.now ≤ 1048576 }
    ensures { result ≡ spec.after place bytes.now }
{
    for byte in bytes {
        place = after_byte(place, *byte);
    }
    place
}
