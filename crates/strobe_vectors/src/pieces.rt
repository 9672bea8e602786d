// Calls in pieces, each with its line.
use crate::{data, steps};
use std::io;
use strobe::{Flags, Level, Session};

// 200 counting bytes in pieces of this size.
fn step(
    rt: &impl Print,
    session: Session,
    flags: Flags,
    more: bool,
    size: usize,
) -> io::Result<Session> {
    steps::step(
        rt,
        flags,
        200,
        |buf| session.call_in_pieces(flags, more, size, buf),
    )
}

// The MAC's first piece is done, and the next one is refused.
pub fn write(rt: &impl Print) -> io::Result<()> {
    let session = Session::new(&data::NAME, Level::B128).session;
    let session = step(rt, session, Flags::META_AD, true, 0)?;
    let session = step(rt, session, Flags::KEY, false, 1)?;
    let session = step(rt, session, Flags::SEND_ENC, false, 99)?;
    let session = step(rt, session, Flags::SEND_ENC, true, 166)?;
    let session = step(rt, session, Flags::PRF, false, 200)?;
    let session = step(rt, session, Flags::RATCHET, false, 1000)?;
    let session = step(rt, session, Flags::RECV_ENC, true, 7)?;
    step(rt, session, Flags::RECV_MAC, false, 64)?;
    Ok(())
}
