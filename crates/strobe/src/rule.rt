// The rules of data: what a byte of it and the state byte that it meets become.
ghost use Rattle.std.specs.Prelude.{◌≡◌};

pub trait ByteRule {
    ghost use Rattle.strobe.specs.Duplex.{Rule};

    ghost rule: { Rule };

    // what the state byte s becomes
    fn state(s: u8, b: u8) -> u8
        ensures { result ≡ rule.state s b };

    // what the lent byte b becomes
    fn buffer(s: u8, b: u8) -> u8
        ensures { result ≡ rule.buffer s b };
}

pub struct Absorbing;

impl ByteRule for Absorbing {
    ghost use Rattle.strobe.specs.Flags.{absorbing};

    ghost rule = { absorbing };

    fn state(s: u8, b: u8) -> u8 {
        s ^ b
    }

    fn buffer(_s: u8, b: u8) -> u8 {
        b
    }
}

pub struct Overwriting;

impl ByteRule for Overwriting {
    ghost use Rattle.strobe.specs.Flags.{overwriting};

    ghost rule = { overwriting };

    fn state(_s: u8, b: u8) -> u8 {
        b
    }

    fn buffer(_s: u8, b: u8) -> u8 {
        b
    }
}

pub struct Squeezing;

impl ByteRule for Squeezing {
    ghost use Rattle.strobe.specs.Flags.{squeezing};

    ghost rule = { squeezing };

    fn state(_s: u8, _b: u8) -> u8 {
        0
    }

    fn buffer(drawn: u8, _b: u8) -> u8 {
        drawn
    }
}

pub struct Copying;

impl ByteRule for Copying {
    ghost use Rattle.strobe.specs.Flags.{copying};

    ghost rule = { copying };

    fn state(s: u8, _b: u8) -> u8 {
        s
    }

    fn buffer(s: u8, _b: u8) -> u8 {
        s
    }
}

pub struct Enciphering;

impl ByteRule for Enciphering {
    ghost use Rattle.strobe.specs.Flags.{enciphering};

    ghost rule = { enciphering };

    fn state(s: u8, b: u8) -> u8 {
        s ^ b
    }

    fn buffer(s: u8, b: u8) -> u8 {
        s ^ b
    }
}

pub struct Deciphering;

impl ByteRule for Deciphering {
    ghost use Rattle.strobe.specs.Flags.{deciphering};

    ghost rule = { deciphering };

    fn state(_s: u8, b: u8) -> u8 {
        b
    }

    fn buffer(s: u8, b: u8) -> u8 {
        s ^ b
    }
}
