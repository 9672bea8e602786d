// The two levels of security.
ghost use Rattle.std.specs.Prelude.{◌≡◌};
ghost use Rattle.strobe.specs.Session.{rate_of, LevelNumber};

use crate::answer::Answer;

#[derive(Clone, Copy, PartialEq, Eq)]
pub enum Level {
    B128,
    B256,
}

impl Level {
    // The bytes of a block.
    pub fn rate(self) -> usize
        ensures { result ≡ rate_of self }
    {
        match self {
            Level::B128 => 166,
            Level::B256 => 134,
        }
    }
}

// By the number of the level, 128 or 256.
impl TryFrom<usize> for Level {
    type Error = Answer;

    ghost try_from_gives = { LevelNumber };

    fn try_from(number: usize) -> Result<Level, Answer> {
        match number {
            128 => Ok(Level::B128),
            256 => Ok(Level::B256),
            _ => Err(Answer::NoLevel),
        }
    }
}
