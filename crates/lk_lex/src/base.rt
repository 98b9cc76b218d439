//! Digits in the three bases of C, and their values.
ghost use Rattle.std.specs.Prelude.{◌≡◌, ◌<◌, ◌≤◌, ◌^◌, ◌+◌, ◌*◌, length};
ghost use Rattle.std.specs.Option.{SomeIff};
ghost use Rattle.std.specs.Char.{digit_value};
ghost use Rattle.lk_lex.specs.Numbers.{radix, is_digit_of, digits_len, value_of};

/// The base of an integer constant (C99 6.4.4.1) or of an escape (C99 6.4.4.4).
#[derive(Clone, Copy)]
pub enum Base {
    /// 8.
    Octal,
    /// 10.
    Decimal,
    /// 16.
    Hexadecimal,
}

impl Base {
    /// The base as a number.
    fn radix(self) -> u64
        ensures value { result ≡ radix self }
        ensures small { result ≤ 16 }
    {
        match self {
            Base::Octal => 8,
            Base::Decimal => 10,
            Base::Hexadecimal => 16,
        }
    }

    /// Whether a byte is a digit of the base.
    pub fn has_digit(self, byte: u8) -> bool
        ensures { result ≡ is_digit_of self byte }
    {
        match self {
            Base::Octal => matches!(byte, b'0'..=b'7'),
            Base::Decimal => byte.is_ascii_digit(),
            Base::Hexadecimal => byte.is_ascii_hexdigit(),
        }
    }

    /// How many digits of the base the bytes begin with.
    pub fn digits_len(self, bytes: &[u8]) -> usize
        ensures value { result ≡ digits_len self bytes.now }
        ensures within { result ≤ length bytes.now }
    {
        bytes
            .iter()
            .take_while(|byte| self.has_digit(**byte))
            .count()
    }

    /// The value of digits with one more digit behind them, where a `u64` holds it.
    fn longer(self, value: u64, digit: u8) -> Option<u64>
        ensures { SomeIff result (value * radix self + digit_value digit < 2 ^ 64)
            (value * radix self + digit_value digit) }
    {
        value
            .checked_mul(self.radix())?
            .checked_add(u64::from(digit_value(digit)))
    }

    /// The value that digits write, where a `u64` holds it.
    pub fn value_of(self, digits: &[u8]) -> Option<u64>
        ensures { SomeIff result (value_of self digits.now < 2 ^ 64) (value_of self digits.now) }
    {
        let mut value = 0;
        for digit in digits {
            value = self.longer(value, *digit)?;
        }
        Some(value)
    }
}

/// The value of a digit or a letter, or 36.
fn digit_value(byte: u8) -> u8
    ensures value { result ≡ digit_value byte }
    ensures small { result ≤ 36 }
{
    match byte {
        b'0'..=b'9' => byte - b'0',
        b'A'..=b'Z' => byte - b'A' + 10,
        b'a'..=b'z' => byte - b'a' + 10,
        _ => 36,
    }
}
