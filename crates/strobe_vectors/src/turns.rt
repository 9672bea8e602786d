// A seat's turns on a lent session, each beside the same calls by value.
ghost use Rattle.std.specs.Prelude.{◌≤◌};

use crate::{data, line};
use hex_digits::Hex;
use lent::Turn;
use std::io;
use strobe::{Flags, Level, Outcome, Session};

const EVENT: [u8; 9] = *b"north won";

// What a turn leaves: its result, and its three buffers.
#[derive(Clone, Copy, PartialEq, Eq)]
struct Left {
    turn: Turn,
    buf: [u8; 70],
    dice: [u8; 20],
    form: [u8; 210],
}

// How a turn is taken: the operation's flags and `more`, its bytes, the ratchet's count, the bytes to save into.
#[derive(Clone, Copy)]
struct Way {
    flags: Flags,
    more: bool,
    size: usize,
    count: usize,
    room: usize,
    ghost size_fits: { size ≤ 70 },
    ghost room_fits: { room ≤ 210 },
}

impl Way {
    fn usual(byte: u8, more: bool, size: usize) -> Way
        requires { size ≤ 70 }
    {
        Way {
            flags: Flags(byte),
            more,
            size,
            count: 32,
            room: 210,
        }
    }

    // A turn on buffers of its own.
    fn taken<F: FnOnce(&mut [u8], &mut [u8], &mut [u8]) -> Turn>(self, turn: F) -> Left
        requires { F.IsAlwaysCallable turn }
    {
        let mut buf = data::counting(0);
        let mut dice = [0u8; 20];
        let mut form = [0u8; 210];
        let turn = turn(&mut buf[..self.size], &mut dice, &mut form[..self.room]);
        Left {
            turn,
            buf,
            dice,
            form,
        }
    }

    fn lent(self, session: Session) -> Left {
        self.taken(|buf, dice, form| {
            lent::take_turn(
                session, &EVENT, self.flags, self.more, buf, dice, self.count, form,
            )
        })
    }

    fn by_value(self, session: Session) -> Left {
        self.taken(|buf, dice, form| {
            let heard = session.ad(&EVENT, false);
            let worked = heard.session.call(self.flags, self.more, buf);
            let rolled = worked.session.prf(dice, false);
            let ended = rolled.session.ratchet(self.count, false);
            Turn {
                session: ended.session,
                noted: heard.answer,
                called: worked.answer,
                drawn: rolled.answer,
                ratcheted: ended.answer,
                saved: saved::save(ended.session, form),
            }
        })
    }
}

impl Left {
    fn write(&self, rt: &impl Print) -> io::Result<()> {
        let Turn {
            session,
            noted,
            called,
            drawn,
            ratcheted,
            saved,
        } = self.turn;
        let outcome = Outcome {
            session,
            answer: called,
        };
        line::write(rt, outcome, &self.buf)?;
        let numbers = [noted, called, drawn, ratcheted, saved].map(|answer| answer.number());
        println!(rt; "{} {} {}", Hex(&numbers), Hex(&self.dice), Hex(&self.form))
    }
}

// One turn in both ways: two lines, if they agree.
fn take(rt: &impl Print, session: Session, way: Way) -> io::Result<Session> {
    let left = way.lent(session);
    if left != way.by_value(session) {
        println!(rt; "a lent session and one by value differ")?;
        return Ok(session);
    }
    left.write(rt)?;
    Ok(left.turn.session)
}

// Every flag byte without K, turn after turn.
fn every_byte(rt: &impl Print, level: Level) -> io::Result<Session> {
    let mut session = Session::new(&data::NAME, level).session;
    for byte in 0..0x20 {
        session = take(rt, session, Way::usual(byte, false, 20))?;
    }
    Ok(session)
}

pub fn write(rt: &impl Print) -> io::Result<()> {
    every_byte(rt, Level::B256)?;
    let session = every_byte(rt, Level::B128)?;
    // the operation goes on with the event
    let session = take(rt, session, Way::usual(0x02, true, 70))?;
    // refused: K, not the last operation, a MAC too long, a ratchet too long, a buffer too short to save into
    take(rt, session, Way::usual(0x22, false, 1))?;
    take(rt, session, Way::usual(0x0e, true, 1))?;
    take(rt, session, Way::usual(0x0d, false, 65))?;
    let mut way = Way::usual(0x0d, false, 64);
    way.count = 65537;
    way.room = 205;
    take(rt, session, way)?;
    take(rt, Session::blank(), Way::usual(0x0e, false, 5))?;
    Ok(())
}
