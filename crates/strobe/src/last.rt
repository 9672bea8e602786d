// The last operation of a session: the one that a call with `more` on may continue.
ghost use Rattle.std.specs.Prelude.{◌≡◌};
ghost use Rattle.strobe.specs.Strobe.{known_last, is_last};

use crate::flags::Flags;

#[derive(Clone, Copy, PartialEq, Eq)]
pub enum Last {
    Nothing,
    Op(Flags),
}

impl Last {
    // None, or one of the twenty.
    pub fn known(self) -> bool
        ensures { result ≡ known_last self }
    {
        match self {
            Last::Nothing => true,
            Last::Op(f) => f.operation().known(),
        }
    }

    pub(crate) fn is(self, f: Flags) -> bool
        ensures { result ≡ is_last self f }
    {
        self == Last::Op(f)
    }
}
