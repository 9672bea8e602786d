// The flag bytes of an operation at the two ends.
ghost use Rattle.std.specs.Prelude.{◌≡◌};
ghost use Rattle.replay.specs.Mirror.{mirrored};

use strobe::Flags;

// Of a transported operation one end does the sender's form, the other the receiver's.
pub fn mirror(flags: Flags) -> Flags
    ensures { result ≡ mirrored flags }
{
    if flags.has(Flags::T) {
        Flags(flags.0 ^ Flags::I.0)
    } else {
        flags
    }
}
