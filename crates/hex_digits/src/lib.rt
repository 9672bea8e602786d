// Lower-case hexadecimal digits: the two of a byte, the number of one, and bytes as text.
#![tactic(auto)]

mod text;

ghost use Rattle.std.specs.Prelude.{◌≡◌, [], ◌∷◌, ◌/◌, ◌%◌, ◌<◌};
ghost use Rattle.hex_digits.specs.Digits.{digit_of, value_of, digit_value, pair_value};

pub use text::Hex;

// The digit of a number below 16.
fn digit(n: u8) -> u8
    requires { n < 16 }
    ensures { result ≡ digit_of n }
{
    if n < 10 { b'0' + n } else { b'a' + (n - 10) }
}

// These two ask nothing of their callers: the halves of a byte are below 16.
pub fn upper_digit(byte: u8) -> u8
    ensures { result ≡ digit_of (byte / 16) }
{
    digit(byte / 16)
}

pub fn lower_digit(byte: u8) -> u8
    ensures { result ≡ digit_of (byte % 16) }
{
    digit(byte % 16)
}

// Both digits of a byte.
pub fn of(byte: u8) -> [u8; 2]
    ensures { result ≡ digit_of (byte / 16) ∷ digit_of (byte % 16) ∷ [] }
{
    [upper_digit(byte), lower_digit(byte)]
}

// The number that a digit stands for, if the byte is one.
#[tactic(auto, unfolding(crate::specs::Digits::value_of))]
pub fn number(byte: u8) -> Option<u8>
    ensures { result ≡ digit_value byte }
{
    match byte {
        b'0'..=b'9' => Some(byte - b'0'),
        b'a'..=b'f' => Some(byte - b'a' + 10),
        _ => None,
    }
}

// The same, or 16 where the byte is no digit.
#[tactic(auto, unfolding(crate::specs::Digits::value_of))]
pub fn value(byte: u8) -> u8
    ensures { result ≡ value_of byte }
{
    number(byte).unwrap_or(16)
}

// The byte that two digits stand for.
pub fn byte(upper: u8, lower: u8) -> Option<u8>
    ensures { result ≡ pair_value upper lower }
{
    Some(number(upper)? * 16 + number(lower)?)
}
