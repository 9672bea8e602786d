// A session lent by `&mut` and changed in place. Each call is strobe's call by value: the lent session goes in, and the outcome's is stored back.
#![tactic(auto)]

ghost use Rattle.std.specs.Prelude.{replicate};
ghost use Rattle.strobe.specs.Flags.{AD, PRF, RATCHET};
ghost use Rattle.strobe.specs.Session.{Calls};
ghost use Rattle.saved.specs.Saved.{Saves};
ghost use Rattle.lent.specs.Lent.{outcome};

use strobe::{Answer, Flags, Outcome, Session};

mod turn;

pub use turn::{Turn, take_turn};

// What a call on a lent session gives back: an outcome without the session.
#[derive(Clone, Copy, PartialEq, Eq)]
pub struct Report {
    pub answer: Answer,
}

// A call by value on a lent session. The call is lent as well: only then is it known what it leaves in a buffer that it writes.
fn lend<F: FnMut(Session) -> Outcome>(session: &mut Session, work: &mut F) -> Report
    requires { F.IsAlwaysCallable work.old }
    ensures { F.step work.old session.old (outcome session.new result) work.new }
{
    let out = work(*session);
    *session = out.session;
    Report { answer: out.answer }
}

// The call by number.
pub fn call(session: &mut Session, flags: Flags, more: bool, buf: &mut [u8]) -> Report
    ensures { Calls session.old flags more buf.old (outcome session.new result) buf.new }
{
    lend(session, &mut |own| own.call(flags, more, buf))
}

pub fn ad(session: &mut Session, bytes: &[u8], more: bool) -> Report
    ensures { Calls session.old AD more bytes.now (outcome session.new result) bytes.now }
{
    lend(session, &mut |own| own.ad(bytes, more))
}

pub fn ratchet(session: &mut Session, count: usize, more: bool) -> Report
    ensures { Calls session.old RATCHET more (replicate count 0) (outcome session.new result) (replicate count 0) }
{
    lend(session, &mut |own| own.ratchet(count, more))
}

// The same with the session taken apart field by field, and put together again.
pub fn prf(session: &mut Session, buf: &mut [u8], more: bool) -> Report
    ensures { Calls session.old PRF more buf.old (outcome session.new result) buf.new }
{
    let Session {
        state,
        level,
        pos,
        begin,
        direction,
        last,
    } = *session;
    let whole = Session {
        state,
        level,
        pos,
        begin,
        direction,
        last,
    };
    let out = whole.prf(buf, more);
    let left = out.session.state;
    session.state = left;
    session.level = out.session.level;
    session.pos = out.session.pos;
    session.begin = out.session.begin;
    session.direction = out.session.direction;
    session.last = out.session.last;
    Report { answer: out.answer }
}

// The saved form of a lent session, which stays as it is.
pub fn save(session: &Session, buf: &mut [u8]) -> Answer
    ensures { Saves session.now buf.old result buf.new }
{
    saved::save(*session, buf)
}
