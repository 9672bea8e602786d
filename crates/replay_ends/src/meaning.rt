// What the bytes that the plan draws for an operation mean:
//
//   0      which of the twenty operations, as the first end does it
//   1, 2   the length
//   3, 4   who tries a call that is refused before it, and which
//   5, 8   the size of a piece at the first end, at the second
//   6, 9   the edition in which that end is saved and loaded again before it
//   7, 10  where that end is saved and loaded again in its middle
ghost use Rattle.std.specs.Prelude.{◌<◌};

use crate::before::Attempt;
use crate::plan::SIZE;
use crate::reload::Edition;
use strobe::{Flags, Operation};

// An end, by the number that byte 3 has for it.
#[derive(Clone, Copy)]
pub enum Seat {
    First = 1,
    Second = 2,
}

// The limit of one call that receives a MAC. The plan keeps to it for sent ones, as each is received at the other end.
pub const LONGEST_MAC: usize = 64;

// In the order of docs/RULES.md, section 1, the plain forms before the meta forms.
const OPERATIONS: [Flags; 20] = [
    Flags::AD,
    Flags::RATCHET,
    Flags::KEY,
    Flags::PRF,
    Flags::SEND_CLR,
    Flags::RECV_CLR,
    Flags::SEND_MAC,
    Flags::RECV_MAC,
    Flags::SEND_ENC,
    Flags::RECV_ENC,
    Flags::META_AD,
    Flags::META_RATCHET,
    Flags::META_KEY,
    Flags::META_PRF,
    Flags::META_SEND_CLR,
    Flags::META_RECV_CLR,
    Flags::META_SEND_MAC,
    Flags::META_RECV_MAC,
    Flags::META_SEND_ENC,
    Flags::META_RECV_ENC,
];

// The bytes of an operation, of which the first is the opening.
#[derive(Clone, Copy)]
pub struct Draw {
    pub bytes: [u8; 11],
    pub opening: bool,
}

impl Draw {
    pub fn flags(self) -> Flags {
        if self.opening {
            return Flags::META_AD;
        }
        OPERATIONS[self.bytes[0] as usize % OPERATIONS.len()]
    }

    // The opening is long, so that both ends cut it. A MAC has any length up to its limit. Of the other lengths one in four is below 400, which can be more
    // than two blocks, the rest are below 48.
    pub fn length(self, flags: Flags) -> usize
        ensures { result < SIZE }
    {
        if self.opening {
            return SIZE - 1;
        }
        let high = self.bytes[1] as usize;
        let low = self.bytes[2] as usize;
        match flags.operation() {
            Operation::SendMac | Operation::RecvMac => low % (LONGEST_MAC + 1),
            _ if high % 4 == 0 => (high / 4 * 256 + low) % SIZE,
            _ => low % 48,
        }
    }

    // Of eight, 1 is the first end and 2 the second.
    pub fn attempt(self, seat: Seat) -> Option<Attempt> {
        if self.bytes[3] % 8 != seat as u8 {
            return None;
        }
        Some(match self.bytes[4] % 5 {
            0 => Attempt::KeyFlag,
            1 => Attempt::NoOperation,
            2 => Attempt::NotTheLast,
            3 => Attempt::CutMac,
            _ => Attempt::LongMac,
        })
    }

    // The three bytes that are the end's own.
    fn own(self, seat: Seat) -> [u8; 3] {
        let bytes = self.bytes;
        match seat {
            Seat::First => [bytes[5], bytes[6], bytes[7]],
            Seat::Second => [bytes[8], bytes[9], bytes[10]],
        }
    }

    // Of the pieces one in four is longer than a block, the rest are below 32 bytes, where 0 is no cut. A received MAC can't be cut.
    pub fn size(self, seat: Seat, flags: Flags) -> usize {
        let byte = self.own(seat)[0] as usize;
        match flags.operation() {
            Operation::RecvMac => 0,
            _ if byte < 192 => byte % 32,
            _ => byte,
        }
    }

    // Of eight, 1 is edition 1 and 2 is edition 2. The opening continues the protocol name, which an end that is loaded in edition 1 can't.
    pub fn reload(self, seat: Seat) -> Option<Edition> {
        match self.own(seat)[1] % 8 {
            1 if !self.opening => Some(Edition::One),
            2 => Some(Edition::Two),
            _ => None,
        }
    }

    // In every second operation, after 128 to 255 bytes, counted round in a shorter one. A received MAC can't be cut.
    pub fn middle(self, seat: Seat, flags: Flags, length: usize) -> Option<usize>
        requires { length < SIZE }
    {
        let byte = self.own(seat)[2];
        if flags.operation() == Operation::RecvMac || byte < 128 {
            return None;
        }
        Some(byte as usize % (length + 1))
    }
}
