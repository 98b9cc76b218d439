//! What a program wrote, beside what it should have written.

ghost use Rattle.std.specs.Prelude.{◌≡◌, ◌↔◌, IsNone};

/// The first line in which two texts differ, counted from 1.
pub fn differing_line(text: &[u8], other: &[u8]) -> Option<usize>
    ensures { IsNone result ↔ (text.now ≡ other.now) }
{
    if text == other {
        return None;
    }
    let same = text.iter().zip(other).take_while(|(a, b)| a == b);
    let ended = same.filter(|(byte, _)| **byte == b'\n').count();
    Some(ended.saturating_add(1))
}
