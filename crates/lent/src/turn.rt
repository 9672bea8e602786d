// A seat's turn: a session in a local, lent to one call after another.
ghost use Rattle.lent.specs.Turn.{Turned};

use crate::{ad, call, prf, ratchet, save};
use strobe::{Answer, Flags, Session};

// The session at the end, and the answer of each call.
#[derive(Clone, Copy, PartialEq, Eq)]
pub struct Turn {
    pub session: Session,
    pub noted: Answer,
    pub called: Answer,
    pub drawn: Answer,
    pub ratcheted: Answer,
    pub saved: Answer,
}

// An event is taken in by ad, an operation is done by number on the buffer, dice are drawn by prf, the state is ratcheted, and the session is saved into the form. Each
// call is made whatever those before it answered.
#[tactic(auto, using(crate::proofs::Turns::turned))]
pub fn take_turn(
    session: Session,
    event: &[u8],
    flags: Flags,
    more: bool,
    buf: &mut [u8],
    dice: &mut [u8],
    count: usize,
    form: &mut [u8],
) -> Turn
    ensures { Turned session event.now flags more buf.old dice.old count form.old result buf.new dice.new form.new }
{
    let mut own = session;
    let noted = ad(&mut own, event, false).answer;
    let called = call(&mut own, flags, more, buf).answer;
    let drawn = prf(&mut own, dice, false).answer;
    let ratcheted = ratchet(&mut own, count, false).answer;
    let saved = save(&own, form);
    Turn {
        session: own,
        noted,
        called,
        drawn,
        ratcheted,
        saved,
    }
}
