// Whether a session's end is the sender or the receiver: the first operation with T settles it.
ghost use Rattle.std.specs.Prelude.{◌≡◌};
ghost use Rattle.strobe.specs.Strobe.{directed, disagrees, mixed};

use crate::flags::Flags;

#[derive(Clone, Copy, PartialEq, Eq)]
pub enum Direction {
    Neither,
    Sender,
    Receiver,
}

impl Direction {
    // The direction once an operation with these flags is opened.
    pub(crate) fn directed(self, f: Flags) -> Direction
        ensures { result ≡ directed self f }
    {
        match self {
            Direction::Neither if f.has(Flags::T) && f.has(Flags::I) => Direction::Receiver,
            Direction::Neither if f.has(Flags::T) => Direction::Sender,
            settled => settled,
        }
    }

    // 1 where I, set or not, disagrees with the direction.
    fn disagrees(self, inbound: bool) -> u8
        ensures { result ≡ disagrees self inbound }
    {
        u8::from(inbound != (self == Direction::Receiver))
    }

    // The flags that are mixed in: both ends mix the same byte, though one sends and the other receives.
    #[tactic(auto, unfolding(crate::specs::Strobe::mixed))]
    pub(crate) fn mixed(self, f: Flags) -> u8
        ensures { result ≡ mixed self f }
    {
        if f.has(Flags::T) {
            f.0 - f.0 % 2 + self.disagrees(f.has(Flags::I))
        } else {
            f.0
        }
    }
}
