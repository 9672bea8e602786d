// Calls by number, each with its line.
use crate::{data, steps};
use std::io;
use strobe::{Flags, Level, Session};

// A call on so many counting bytes.
pub fn step(
    rt: &impl Print,
    session: Session,
    byte: u8,
    more: bool,
    count: u8,
) -> io::Result<Session> {
    let flags = Flags(byte);
    steps::step(rt, flags, count, |buf| session.call(flags, more, buf))
}

// Every flag byte without K, the twenty and the twelve that are no operation's.
pub fn write(rt: &impl Print) -> io::Result<()> {
    let mut session = Session::new(&data::NAME, Level::B256).session;
    for byte in 0..0x20 {
        session = step(rt, session, byte, false, 5)?;
    }
    Ok(())
}
