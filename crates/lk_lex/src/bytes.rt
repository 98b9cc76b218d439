//! Classes of bytes, and runs of them.
ghost use Rattle.std.specs.Prelude.{◌≡◌, ◌≤◌, length};
ghost use Rattle.std.specs.List.{list_any};
ghost use Rattle.std.specs.Str.{bytes_eq};
ghost use Rattle.lk_lex.specs.Bytes as spec;

/// Whether a byte is a blank: a tab, a new line, a vertical tab, a form feed, a carriage return or a space.
pub fn is_blank(byte: u8) -> bool
    ensures { result ≡ spec.is_blank byte }
{
    matches!(byte, b'\t'..=b'\r' | b' ')
}

/// Whether a byte may stand in a word: a letter, a digit or `_`.
pub fn is_word_byte(byte: u8) -> bool
    ensures { result ≡ spec.is_word_byte byte }
{
    byte.is_ascii_alphanumeric() || byte == b'_'
}

/// How many bytes the word at the front has.
pub fn word_len(bytes: &[u8]) -> usize
    ensures value { result ≡ spec.word_len bytes.now }
    ensures within { result ≤ length bytes.now }
{
    bytes.iter().take_while(|byte| is_word_byte(**byte)).count()
}

/// How many bytes there are before the line's end.
pub fn line_len(bytes: &[u8]) -> usize
    ensures value { result ≡ spec.line_len bytes.now }
    ensures within { result ≤ length bytes.now }
{
    bytes.iter().take_while(|byte| **byte != b'\n').count()
}

/// How many blanks there are in front.
fn blanks_len(bytes: &[u8]) -> usize
    ensures value { result ≡ spec.blanks_len bytes.now }
    ensures within { result ≤ length bytes.now }
{
    bytes.iter().take_while(|byte| is_blank(**byte)).count()
}

/// What stands behind the blanks in front.
pub fn past_blanks(bytes: &[u8]) -> &[u8]
    ensures { result.now ≡ spec.past_blanks bytes.entry.now }
{
    let (_, rest) = bytes.split_at(blanks_len(bytes));
    rest
}

/// Whether the text is one of the words.
pub fn is_among(text: &[u8], words: &[&str]) -> bool
    ensures { result ≡ list_any (λ word. bytes_eq text.now word.now) words.now }
{
    words.iter().any(|word| text == word.as_bytes())
}
