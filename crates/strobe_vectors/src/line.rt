// The line of a creation or a call: its answer, the session's parts, the lent bytes and the state.
use hex_digits::Hex;
use std::{fmt, io};
use strobe::{Direction, Flags, Last, Outcome, Session};

#[derive(Drop)]
struct Parts(Session);

impl fmt::Display for Parts {
    fn fmt<W: fmt::Write>(&self, f: &mut fmt::Formatter<W>) -> fmt::Result {
        let Session {
            pos,
            begin,
            direction,
            last,
            ..
        } = self.0;
        let end = match direction {
            Direction::Neither => 0,
            Direction::Sender => 1,
            Direction::Receiver => 2,
        };
        write!(f, "{pos:02x} {begin:02x} {end} ")?;
        match last {
            Last::Nothing => write!(f, "--"),
            Last::Op(Flags(byte)) => write!(f, "{byte:02x}"),
        }
    }
}

// Gives the session on.
pub fn write(rt: &impl Print, outcome: Outcome, lent: &[u8]) -> io::Result<Session> {
    let Outcome { session, answer } = outcome;
    println!(rt;
        "{:02} {} {} {}",
        answer.number(),
        Parts(session),
        Hex(lent),
        Hex(&session.state)
    )?;
    Ok(session)
}
