// The saved form: sessions saved and loaded again in both editions, and the calls after that.
use crate::editions::Edition;
use crate::numbered::step;
use crate::{data, line, trials};
use std::io;
use strobe::{Level, Outcome, Session};

// A save into a buffer of just the size, and a load of it.
fn there_and_back(rt: &impl Print, session: Session) -> io::Result<Session> {
    let mut form = [0u8; saved::SIZE];
    let answer = saved::save(session, &mut form);
    line::write(rt, Outcome { session, answer }, &form)?;
    line::write(rt, saved::load(&form), &form)
}

// A load of the session's form in edition 1.
fn back_from_old(rt: &impl Print, session: Session) -> io::Result<Session> {
    let form = Edition::One.form(session);
    let old = &form[..usize::from(Edition::One.size())];
    line::write(rt, saved::load(old), old)
}

// The example of docs/FORMATS.md.
fn example(rt: &impl Print) -> io::Result<()> {
    let seat = Session::new(b"seat 7", Level::B128).session;
    let told = seat.send_clr(b"d6", false).session;
    there_and_back(rt, told)?;
    back_from_old(rt, told)?;
    Ok(())
}

// With no last operation `more` has nothing to go on with before one is opened. With ad as the last one the first call goes on.
fn first_calls(rt: &impl Print, loaded: Session) -> io::Result<Session> {
    let s = step(rt, loaded, 0x02, true, 3)?;
    let s = step(rt, s, 0x22, true, 3)?;
    let s = step(rt, s, 0x05, true, 3)?;
    let s = step(rt, s, 0x0d, true, 3)?;
    let s = step(rt, s, 0x06, true, 3)?;
    let s = step(rt, s, 0x0d, false, 3)?;
    let s = step(rt, s, 0x1b, false, 3)?;
    step(rt, s, 0x1b, true, 3)
}

// A prf, and the same with a save and a load in its middle: its two parts are the whole, and the session is the same.
fn write_stream(rt: &impl Print, session: Session) -> io::Result<()> {
    step(rt, session, 0x07, false, 200)?;
    let first = step(rt, session, 0x07, false, 77)?;
    step(rt, there_and_back(rt, first)?, 0x07, true, 123)?;
    Ok(())
}

// What was loaded from edition 1 is saved with no last operation. What was loaded from edition 2 goes on, also with the protocol name.
fn at_level(rt: &impl Print, level: Level) -> io::Result<Session> {
    let fresh = Session::new(&data::NAME, level).session;
    step(rt, there_and_back(rt, fresh)?, 0x12, true, 3)?;
    let received = there_and_back(rt, step(rt, fresh, 0x0f, false, 100)?)?;
    let told = step(rt, received, 0x02, false, 3)?;
    first_calls(rt, there_and_back(rt, back_from_old(rt, told)?)?)?;
    let loaded = first_calls(rt, there_and_back(rt, told)?)?;
    write_stream(rt, loaded)?;
    trials::write_values(rt, loaded)?;
    Ok(loaded)
}

fn reloaded(session: Session, edition: Edition) -> Session {
    let form = edition.form(session);
    saved::load(&form[..usize::from(edition.size())]).session
}

// Every flag byte without K: a call, and one that goes on with it after a load of each edition. Only edition 2 lets it go on.
fn write_going_on(rt: &impl Print) -> io::Result<()> {
    let mut session = Session::new(&data::NAME, Level::B128).session;
    for byte in 0..0x20 {
        let opened = step(rt, session, byte, false, 5)?;
        step(rt, reloaded(opened, Edition::One), byte, true, 7)?;
        session = step(rt, reloaded(opened, Edition::Two), byte, true, 7)?;
    }
    Ok(())
}

// 256 bytes more than an edition's size: a refused load, and a call on the blank that it gave.
fn write_refused(rt: &impl Print, bytes: &[u8]) -> io::Result<()> {
    let blank = line::write(rt, saved::load(bytes), b"")?;
    step(rt, blank, 0x02, false, 3)?;
    Ok(())
}

pub fn write(rt: &impl Print) -> io::Result<()> {
    example(rt)?;
    at_level(rt, Level::B128)?;
    let session = at_level(rt, Level::B256)?;
    write_going_on(rt)?;
    trials::write_lengths(rt, session)?;
    trials::write_not_saved(rt)?;
    write_refused(rt, &[1u8; 461])?;
    write_refused(rt, &[2u8; 462])
}
