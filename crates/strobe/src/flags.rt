// The flag byte: its bits, and the twenty operations.
ghost use Rattle.std.specs.Prelude.{◌≡◌};
ghost use Rattle.strobe.specs.Flags.{has, operation, known, is_recv_mac, over_limit};

// A type of its own, so that it can't be taken for a count or a position.
#[derive(Clone, Copy, PartialEq, Eq)]
pub struct Flags(pub u8);

impl Flags {
    // Data moves inbound.
    pub const I: Flags = Flags(0x01);

    // Data goes to or comes from the application.
    pub const A: Flags = Flags(0x02);

    // The operation uses cipher output.
    pub const C: Flags = Flags(0x04);

    // Data goes to or comes from the transport.
    pub const T: Flags = Flags(0x08);

    // A meta form.
    pub const M: Flags = Flags(0x10);

    // Reserved: every call with it is refused.
    pub const K: Flags = Flags(0x20);

    pub const AD: Flags = Flags(0x02);

    pub const RATCHET: Flags = Flags(0x04);

    pub const KEY: Flags = Flags(0x06);

    pub const PRF: Flags = Flags(0x07);

    pub const SEND_CLR: Flags = Flags(0x0a);

    pub const RECV_CLR: Flags = Flags(0x0b);

    pub const SEND_MAC: Flags = Flags(0x0c);

    pub const RECV_MAC: Flags = Flags(0x0d);

    pub const SEND_ENC: Flags = Flags(0x0e);

    pub const RECV_ENC: Flags = Flags(0x0f);

    pub const META_AD: Flags = Flags(0x12);

    pub const META_RATCHET: Flags = Flags(0x14);

    pub const META_KEY: Flags = Flags(0x16);

    pub const META_PRF: Flags = Flags(0x17);

    pub const META_SEND_CLR: Flags = Flags(0x1a);

    pub const META_RECV_CLR: Flags = Flags(0x1b);

    pub const META_SEND_MAC: Flags = Flags(0x1c);

    pub const META_RECV_MAC: Flags = Flags(0x1d);

    pub const META_SEND_ENC: Flags = Flags(0x1e);

    pub const META_RECV_ENC: Flags = Flags(0x1f);

    // Whether a bit of `one` is set in these.
    pub fn has(self, one: Flags) -> bool
        ensures { result ≡ has self one }
    {
        self.0 & one.0 != 0
    }

    // The operation that the byte calls for.
    #[tactic(auto, unfolding(crate::specs::Flags::operation, crate::specs::Flags::operation_of))]
    pub fn operation(self) -> Operation
        ensures { result ≡ operation self }
    {
        if self.0 < 0x20 {
            match self.0 % 0x10 {
                0x02 => Operation::Ad,
                0x04 => Operation::Ratchet,
                0x06 => Operation::Key,
                0x07 => Operation::Prf,
                0x0a => Operation::SendClr,
                0x0b => Operation::RecvClr,
                0x0c => Operation::SendMac,
                0x0d => Operation::RecvMac,
                0x0e => Operation::SendEnc,
                0x0f => Operation::RecvEnc,
                _ => Operation::Unknown,
            }
        } else {
            Operation::Unknown
        }
    }
}

// What the twenty do, meta or not. `Unknown` is a byte that is none of them.
#[derive(Clone, Copy, PartialEq, Eq)]
pub enum Operation {
    Ad,
    Ratchet,
    Key,
    Prf,
    SendClr,
    RecvClr,
    SendMac,
    RecvMac,
    SendEnc,
    RecvEnc,
    Unknown,
}

impl Operation {
    pub(crate) fn known(self) -> bool
        ensures { result ≡ known self }
    {
        self != Operation::Unknown
    }

    pub(crate) fn is_recv_mac(self) -> bool
        ensures { result ≡ is_recv_mac self }
    {
        self == Operation::RecvMac
    }

    // Whether n bytes, or a count of n, are too many for one call.
    pub(crate) fn over_limit(self, n: usize) -> bool
        ensures { result ≡ over_limit self n }
    {
        match self {
            Operation::Ratchet => 65536 < n,
            Operation::RecvMac => 64 < n,
            _ => false,
        }
    }
}
