// Every refusal. What is refused leaves the session as it was.
use crate::numbered::step;
use crate::{data, line, steps};
use std::io;
use strobe::{Flags, Last, Level, Session};

// On a session whose last operation is ad. Where two tests fail the earlier one answers.
fn by_number(rt: &impl Print, s: Session) -> io::Result<()> {
    // 1: K
    step(rt, s, 0x22, false, 3)?;
    step(rt, s, 0xff, true, 3)?;
    // 2: no operation
    step(rt, s, 0x05, true, 3)?;
    step(rt, s, 0x42, false, 3)?;
    // 4: a MAC in pieces
    step(rt, s, 0x0d, true, 65)?;
    // 3: not the last operation
    step(rt, s, 0x06, true, 3)?;
    step(rt, s, 0x12, true, 0)?;
    // 5: a MAC above 64 bytes
    step(rt, s, 0x0d, false, 65)?;
    step(rt, s, 0x1d, false, 65)?;
    Ok(())
}

// The longest that are done, the shortest that are refused.
fn limits(rt: &impl Print, s: Session) -> io::Result<()> {
    line::write(rt, s.ratchet(65537, true), b"")?;
    line::write(rt, s.ratchet(65537, false), b"")?;
    line::write(rt, s.meta_ratchet(65537, false), b"")?;
    let ratcheted = line::write(rt, s.ratchet(65536, false), b"")?;
    line::write(rt, ratcheted.ratchet(65537, true), b"")?;
    step(rt, s, 0x0d, false, 64)?;
    Ok(())
}

// A session at other places, with another last operation.
pub fn changed(session: Session, pos: usize, begin: usize, last: Last) -> Session {
    Session {
        pos,
        begin,
        last,
        ..session
    }
}

// A position at the rate of level 256, a begin position above the position, a last operation that is none of the
// twenty; at the end a session that is just well formed.
fn not_sessions(rt: &impl Print, s: Session) -> io::Result<()> {
    let s = Session {
        level: Level::B256,
        ..s
    };
    step(rt, changed(s, 134, 0, Last::Nothing), 0x22, true, 3)?;
    step(rt, changed(s, 4, 5, Last::Nothing), 0x02, false, 3)?;
    step(rt, changed(s, 5, 5, Last::Op(Flags(0x05))), 0x05, true, 3)?;
    step(rt, changed(s, 133, 133, Last::Op(Flags::AD)), 0x02, true, 3)?;
    Ok(())
}

fn no_level(rt: &impl Print, level: usize) -> io::Result<Session> {
    line::write(rt, Session::create(&data::NAME, level), &data::NAME)
}

pub fn write(rt: &impl Print) -> io::Result<()> {
    let fresh = Session::new(&data::NAME, Level::B128).session;
    let s = step(rt, fresh, 0x02, false, 3)?;
    by_number(rt, s)?;
    limits(rt, s)?;
    not_sessions(rt, s)?;
    no_level(rt, 0)?;
    let blank = no_level(rt, 127)?;
    step(rt, blank, 0x02, false, 3)?;
    steps::step(rt, Flags::RECV_MAC, 0, |mac| blank.recv_mac(mac))?;
    Ok(())
}
