// Bytes as text.
ghost use Rattle.std.specs.Prelude.{Some, [], ◌∷◌, ◌/◌, ◌%◌, ◌<◌, ◌≡◌};
ghost use Rattle.hex_digits.specs.Digits.{digit_of, encode};

use std::fmt;

// Bytes that are printed as their digits.
#[derive(Drop)]
pub struct Hex<'a>(pub &'a [u8]);

// A byte. That it is below 256 a proof sees of an argument, and not of an element of a slice behind a field.
#[derive(Drop)]
struct Pair {
    byte: u8,
    ghost small: { byte < 256 },
}

fn two_digits(byte: u8) -> Pair
    ensures { result.byte ≡ byte }
{
    Pair { byte }
}

impl fmt::Display for Pair {
    ghost output = { λ p. Some (digit_of (p.byte / 16) ∷ digit_of (p.byte % 16) ∷ []) };

    fn fmt<W: fmt::Write>(&self, f: &mut fmt::Formatter<W>) -> fmt::Result {
        write!(f, "{:02x}", self.byte)
    }
}

impl fmt::Display for Hex<'_> {
    ghost output = { λ h. Some (encode h.0.now) };

    #[tactic(auto, unfolding(crate::specs::Digits::encode))]
    fn fmt<W: fmt::Write>(&self, f: &mut fmt::Formatter<W>) -> fmt::Result {
        for &byte in self.0 {
            write!(f, "{}", two_digits(byte))?;
        }
        Ok(())
    }
}
