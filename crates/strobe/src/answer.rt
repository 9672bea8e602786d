// The answers of a creation, a call, a load and a save, by the numbers of docs/RULES.md, section 7.
ghost use Rattle.std.specs.Prelude.{◌≡◌};
ghost use Rattle.strobe.specs.Answer.{number, refuses};

#[derive(Clone, Copy, PartialEq, Eq)]
pub enum Answer {
    Done = 0,
    // the flag byte has K
    KeyFlag = 1,
    // the flag byte is none of the twenty
    NoOperation = 2,
    // `more` is on, and the last operation is not this one
    NotTheLast = 3,
    // `more` is on for a received MAC
    CutMac = 4,
    // a ratchet or a received MAC above its limit
    TooLong = 5,
    // a level number that is neither 128 nor 256
    NoLevel = 6,
    // the session is not well formed
    NotASession = 8,
    // the received MAC is not the state's: the one answer beside Done that is no refusal
    MacUnequal = 9,
    // no saved form
    BadSaved = 10,
    // a buffer too short to save into
    ShortBuffer = 11,
}

impl Answer {
    pub fn number(self) -> u8
        ensures { result ≡ number self }
    {
        self as u8
    }

    // Whether nothing was done. A wrong MAC is no refusal.
    pub fn refuses(self) -> bool
        ensures { result ≡ refuses (number self) }
    {
        self != Answer::Done && self != Answer::MacUnequal
    }
}
