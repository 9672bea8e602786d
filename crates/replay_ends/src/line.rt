// The line of an operation has three parts, each with a semicolon behind it:
//
//   its number, the first end's flag byte in hexadecimal, the length
//   the first end: the edition in which it was loaded, what it was answered when it then went on, and when it tried a call that is refused; after how
//     many bytes of the operation it was loaded in its middle, and in which edition; the operation's answer, its position and begin position, and its
//     bytes after it in hexadecimal
//   the second end: the same
//
// A `-` is for what was not done, `changed` for a refused call that changed its bytes, of which there is none. The first
// line of a level is its version text, the last one has both ends' states.
use crate::ends::{End, Ends};
use crate::plan::{Part, Step};
use hex_digits::Hex;
use std::{fmt, io};

#[derive(Drop)]
struct OrDash<T>(Option<T>);

impl<T: fmt::Display> fmt::Display for OrDash<T> {
    fn fmt<W: fmt::Write>(&self, f: &mut fmt::Formatter<W>) -> fmt::Result {
        match &self.0 {
            Some(done) => write!(f, "{done}"),
            None => write!(f, "-"),
        }
    }
}

// What one end did.
#[derive(Drop)]
struct Did<'a>(&'a End, &'a Part);

impl fmt::Display for Did<'_> {
    fn fmt<W: fmt::Write>(&self, f: &mut fmt::Formatter<W>) -> fmt::Result {
        let Did(end, part) = self;
        let before = end.before;
        write!(
            f,
            " {} {} {} ",
            OrDash(before.edition),
            OrDash(before.went_on),
            OrDash(before.refused),
        )?;
        if let Some(n) = part.middle {
            write!(f, "{n}:")?;
        }
        write!(
            f,
            "{} {} {} {} {};",
            OrDash(end.edition),
            end.answer.number(),
            end.session.pos,
            end.session.begin,
            Hex(&end.bytes[..part.length]),
        )
    }
}

pub fn write(rt: &impl Print, number: u64, step: &Step, ends: &Ends) -> io::Result<()> {
    println!(rt;
        "{number} {:02x} {};{}{}",
        step.first.flags.0,
        step.first.length,
        Did(&ends.first, &step.first),
        Did(&ends.second, &step.second),
    )
}

pub fn write_states(rt: &impl Print, ends: &Ends) -> io::Result<()> {
    println!(rt;
        "states; {}; {};",
        Hex(&ends.first.session.state),
        Hex(&ends.second.session.state),
    )
}
