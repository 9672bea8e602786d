// Loads and saves with every number below 256: as the value of a byte of a form, as the length of a form, as the length of a buffer.
use crate::data;
use crate::editions::Edition;
use crate::refusals::changed;
use hex_digits::Hex;
use std::{array, io};
use strobe::{Answer, Flags, Last, Level, Outcome, Session};

// The answer of a trial, and two numbers more: of a load the position and the last operation, as a form has it; of a save what is kept of the buffer,
// and its byte where the last operation stands.
#[derive(Clone, Copy)]
struct Case {
    answer: Answer,
    number: u8,
    last: u8,
}

fn last_byte(last: Last) -> u8 {
    match last {
        Last::Nothing => 0xff,
        Last::Op(flags) => flags.0,
    }
}

fn loaded(form: &[u8]) -> Case {
    let Outcome { session, answer } = saved::load(form);
    Case {
        answer,
        number: (session.pos % 256) as u8,
        last: last_byte(session.last),
    }
}

// 3 where a buffer is as it was, 1 where only the bytes after the form are.
fn kept(buf: [u8; 256]) -> u8 {
    let before: [u8; 256] = data::counting(0);
    if buf == before {
        3
    } else if buf[206..] == before[206..] {
        1
    } else {
        0
    }
}

// A row for each of the three, with every number below 256.
fn write_trial<F: Fn(u8) -> Case>(rt: &impl Print, tried: F) -> io::Result<()>
    requires { F.IsAlwaysCallable tried }
{
    let cases: [Case; 256] = array::from_fn(|n| tried((n % 256) as u8));
    println!(rt; "{}", Hex(&cases.map(|case| case.answer.number())))?;
    println!(rt; "{}", Hex(&cases.map(|case| case.number)))?;
    println!(rt; "{}", Hex(&cases.map(|case| case.last)))
}

// Loads of the form with each value of the byte at a place.
fn write_value(rt: &impl Print, session: Session, edition: Edition, place: u8) -> io::Result<()> {
    let form = edition.form(session);
    write_trial(rt, |value| {
        let mut bytes = form;
        bytes[usize::from(place)] = value;
        loaded(&bytes[..usize::from(edition.size())])
    })
}

// Loads of so many bytes of the form.
fn write_length(rt: &impl Print, session: Session, edition: Edition) -> io::Result<()> {
    let form = edition.form(session);
    write_trial(rt, |n| loaded(&form[..usize::from(n)]))
}

// Saves into so many bytes.
fn write_room(rt: &impl Print, session: Session) -> io::Result<()> {
    write_trial(rt, |n| {
        let mut buf: [u8; 256] = data::counting(0);
        let answer = saved::save(session, &mut buf[..usize::from(n)]);
        Case {
            answer,
            number: kept(buf),
            last: buf[205],
        }
    })
}

// The bytes before the state, and the last operation.
pub fn write_values(rt: &impl Print, session: Session) -> io::Result<()> {
    for edition in [Edition::One, Edition::Two] {
        for place in 0..5 {
            write_value(rt, session, edition, place)?;
        }
    }
    write_value(rt, session, Edition::Two, 205)
}

// Behind the form of edition 1 comes a last operation's byte: of its first 206 bytes only the edition is wrong.
pub fn write_lengths(rt: &impl Print, session: Session) -> io::Result<()> {
    write_length(rt, session, Edition::One)?;
    write_length(rt, session, Edition::Two)?;
    write_room(rt, session)
}

// Sessions that are not well formed: 8 comes before 11, and every byte is kept. The last two have no operation's flags for a last operation; the last
// one's are what a form has for none.
pub fn write_not_saved(rt: &impl Print) -> io::Result<()> {
    let blank = Session::blank();
    write_room(rt, blank)?;
    let s = Session {
        level: Level::B256,
        ..blank
    };
    write_room(rt, changed(s, 134, 0, Last::Nothing))?;
    write_room(rt, changed(s, 4, 5, Last::Nothing))?;
    write_room(rt, changed(s, 5, 5, Last::Op(Flags(0x05))))?;
    write_room(rt, changed(s, 5, 5, Last::Op(Flags(0xff))))
}
