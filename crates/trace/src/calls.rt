// The call that a line asks for, by number and by name. What has no name is called by number both times, a long ratchet by name.
use crate::frame::Asked;
use strobe::{Flags, Level, Outcome, Session};

pub trait Way {
    fn create(name: &[u8], level: u8) -> Outcome;

    fn operate(session: Session, flags: Flags, more: bool, buf: &mut [u8]) -> Outcome;
}

pub struct Number;

impl Way for Number {
    // Only the level bytes 01 and 02 give a level's number.
    fn create(name: &[u8], level: u8) -> Outcome {
        Session::create(name, level as usize * 128)
    }

    fn operate(session: Session, flags: Flags, more: bool, buf: &mut [u8]) -> Outcome {
        session.call(flags, more, buf)
    }
}

pub struct Name;

impl Way for Name {
    fn create(name: &[u8], level: u8) -> Outcome {
        match level {
            0x01 => Session::new(name, Level::B128),
            0x02 => Session::new(name, Level::B256),
            _ => Number::create(name, level),
        }
    }

    // A received MAC carried on has no name.
    fn operate(session: Session, flags: Flags, more: bool, buf: &mut [u8]) -> Outcome {
        match flags.0 {
            0x02 => session.ad(buf, more),
            0x04 | 0x14 => ratchet(session, flags, more, buf.len()),
            0x06 => session.key(buf, more),
            0x07 => session.prf(buf, more),
            0x0a => session.send_clr(buf, more),
            0x0b => session.recv_clr(buf, more),
            0x0c => session.send_mac(buf, more),
            0x0d if !more => session.recv_mac(buf),
            0x0e => session.send_enc(buf, more),
            0x0f => session.recv_enc(buf, more),
            0x12 => session.meta_ad(buf, more),
            0x16 => session.meta_key(buf, more),
            0x17 => session.meta_prf(buf, more),
            0x1a => session.meta_send_clr(buf, more),
            0x1b => session.meta_recv_clr(buf, more),
            0x1c => session.meta_send_mac(buf, more),
            0x1d if !more => session.meta_recv_mac(buf),
            0x1e => session.meta_send_enc(buf, more),
            0x1f => session.meta_recv_enc(buf, more),
            _ => Number::operate(session, flags, more, buf),
        }
    }
}

fn ratchet(session: Session, flags: Flags, more: bool, count: usize) -> Outcome {
    if flags.has(Flags::M) {
        return session.meta_ratchet(count, more);
    }
    session.ratchet(count, more)
}

impl Asked {
    pub fn call<W: Way>(self, session: Session, lent: &mut [u8]) -> Outcome {
        match self {
            Asked::Create(level) => W::create(lent, level),
            Asked::Call(flags, more) => W::operate(session, flags, more, lent),
            Asked::LongRatchet(flags, more, count) => ratchet(session, flags, more, count),
            Asked::Save => {
                let answer = saved::save(session, lent);
                Outcome { session, answer }
            }
            Asked::Load => saved::load(lent),
        }
    }
}
