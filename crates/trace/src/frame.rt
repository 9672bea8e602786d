// What a line asks for. A line that is out of shape asks for nothing.
ghost use Rattle.std.specs.Prelude.{◌≤◌, length};
ghost use Rattle.trace.specs.Bounds.{lent_limit};

use crate::digits;
use strobe::{Flags, Operation};

#[derive(Clone, Copy)]
pub enum Asked {
    // with a level byte
    Create(u8),
    // with `more`
    Call(Flags, bool),
    // with `more` and a count that no buffer here is long enough for
    LongRatchet(Flags, bool, usize),
    Save,
    Load,
}

// What is asked for, and the lent buffer.
#[derive(Drop)]
pub struct Frame<'a> {
    pub asked: Asked,
    pub lent: &'a mut [u8],
    ghost fits: { length lent.now ≤ lent_limit },
}

// The longest buffer that is lent.
pub const LENT_LIMIT: usize = 4096;

// What stands in a buffer that has a count and no payload.
const FILLER: u8 = 0xa5;

// A count of four bytes, the highest first.
fn count_in(payload: &[u8]) -> Option<usize> {
    let mut bytes = [0u8; 4];
    if digits::read(payload, &mut bytes)?.len() != 4 {
        return None;
    }
    Some(u32::from_be_bytes(bytes) as usize)
}

// A prf, a send_mac or a ratchet: the payload is a count, and the buffer is as long as it says. For a larger count there is none, which only a ratchet can do
// without.
fn counted<'a>(
    flags: Flags,
    more: bool,
    payload: &[u8],
    buffer: &'a mut [u8; LENT_LIMIT],
) -> Option<Frame<'a>> {
    let count = count_in(payload)?;
    if count <= buffer.len() {
        let lent = &mut buffer[..count];
        lent.fill(FILLER);
        return Some(Frame {
            asked: Asked::Call(flags, more),
            lent,
        });
    }
    if flags.operation() == Operation::Ratchet {
        return Some(Frame {
            asked: Asked::LongRatchet(flags, more, count),
            lent: &mut [],
        });
    }
    None
}

// A flag byte, `more` and a payload.
fn call<'a>(text: &[u8], buffer: &'a mut [u8; LENT_LIMIT]) -> Option<Frame<'a>> {
    let (flags, rest) = digits::split_byte(text)?;
    let (more, payload) = digits::split_byte(rest)?;
    let flags = Flags(flags);
    let more = match more {
        0 => false,
        1 => true,
        _ => return None,
    };
    match flags.operation() {
        Operation::Ratchet | Operation::Prf | Operation::SendMac => {
            counted(flags, more, payload, buffer)
        }
        _ => Frame::lending(Asked::Call(flags, more), payload, buffer),
    }
}

impl<'a> Frame<'a> {
    // What is lent stands in the line.
    fn lending(asked: Asked, text: &[u8], buffer: &'a mut [u8; LENT_LIMIT]) -> Option<Frame<'a>> {
        let lent = digits::read(text, buffer)?;
        Some(Frame { asked, lent })
    }

    // A case's first line: a level byte and a protocol name.
    pub fn first(text: &[u8], buffer: &'a mut [u8; LENT_LIMIT]) -> Option<Frame<'a>> {
        let (level, name) = digits::split_byte(text)?;
        Frame::lending(Asked::Create(level), name, buffer)
    }

    // Every other line.
    pub fn later(text: &[u8], buffer: &'a mut [u8; LENT_LIMIT]) -> Option<Frame<'a>> {
        match text {
            [b's', bytes @ ..] => Frame::lending(Asked::Save, bytes, buffer),
            [b'l', bytes @ ..] => Frame::lending(Asked::Load, bytes, buffer),
            _ => call(text, buffer),
        }
    }
}
