// What a line's bytes ask for, and the call that it makes.
ghost use Rattle.std.specs.Prelude.{◌≡◌, ◌≤◌, length, replicate};
ghost use Rattle.strobe.specs.Flags.{operation};
ghost use Rattle.strobe.specs.declared.flags.Operation.TheVariants.{Ratchet};
ghost use Rattle.strobe.specs.declared.session.Session.{Session};
ghost use Rattle.frames.specs.Hexadecimal.{bytes};
ghost use Rattle.frames.specs.Frames.{limit, level_of, shows, opening, calling, framed};
ghost use Rattle.frames.specs.Steps.{part_of, read_of};
ghost use Rattle.frames.specs.Inside.{counted_by, told_by, called, unshown};

use crate::called::Called;
use crate::line::Line;
use strobe::{Answer, Flags, Operation, Outcome, Session};

// The bytes of a protocol name, and the count of a prf or a send_mac, are at most so many.
const LIMIT: usize = 4096;

// The level of a level byte; 0 is none, and creation by number refuses it.
fn level_of(byte: u8) -> usize
    ensures { result ≡ level_of byte }
{
    match byte {
        0x01 => 128,
        0x02 => 256,
        _ => 0,
    }
}

// A first line: a level byte and a protocol name. `None` is out of shape.
#[tactic(auto, unfolding(crate::specs::Frames::opening))]
pub fn open(line: &Line) -> Option<Called<'_>>
    ensures { (session : Session) → told_by session result ≡ opening session (read_of (part_of line.now)) }
{
    let (level, name) = line.said()?.split_first()?;
    if name.len() > LIMIT {
        return None;
    }
    Some(Called {
        outcome: Session::create(name, level_of(*level)),
        shown: &[],
    })
}

// Whether an operation's buffer is shown.
fn shows(operation: Operation) -> bool
    ensures { result ≡ shows operation }
{
    matches!(
        operation,
        Operation::Prf | Operation::SendMac | Operation::SendEnc | Operation::RecvEnc
    )
}

// A payload that is a count: four bytes, the highest first.
#[tactic(auto, unfolding(crate::specs::Inside::counted_by), using(crate::proofs::Framing::four_bytes_count))]
fn count_of(payload: &[u8]) -> Option<usize>
    ensures { result ≡ counted_by payload.now }
{
    let [a, b, c, d] = payload else {
        return None;
    };
    Some(u32::from_be_bytes([*a, *b, *c, *d]) as usize)
}

// A ratchet by its count, of no bytes.
fn ratchet(session: &Session, flags: Flags, more: bool, count: usize) -> Outcome
    requires { operation flags ≡ Ratchet }
    ensures { unshown result ≡ calling session.now flags more (bytes (replicate count 0)) }
{
    if flags.has(Flags::M) {
        session.meta_ratchet(count, more)
    } else {
        session.ratchet(count, more)
    }
}

// A call on a buffer.
#[tactic(auto, unfolding(crate::specs::Frames::calling))]
fn call<'a>(session: &Session, flags: Flags, more: bool, buffer: &'a mut [u8]) -> Called<'a>
    requires { length buffer.old ≤ limit }
    ensures { called result ≡ calling session.now flags more (bytes buffer.old) }
{
    let outcome = session.call(flags, more, buffer);
    if outcome.answer != Answer::Done || !shows(flags.operation()) {
        return Called {
            outcome,
            shown: &[],
        };
    }
    Called {
        outcome,
        shown: buffer,
    }
}

// Every line but the first. `None` is out of shape.
#[tactic(auto, unfolding(crate::specs::Frames::framed))]
pub fn frame<'a>(session: &Session, line: &'a mut Line) -> Option<Called<'a>>
    ensures { told_by session.now result ≡ framed session.now (read_of (part_of line.old)) }
{
    let [flags, more, payload @ ..] = line.said()? else {
        return None;
    };
    if *more > 1 {
        return None;
    }
    let flags = Flags(*flags);
    let more = *more == 1;
    match flags.operation() {
        Operation::Ratchet => Some(Called {
            outcome: ratchet(session, flags, more, count_of(payload)?),
            shown: &[],
        }),
        Operation::Prf | Operation::SendMac => {
            let count = count_of(payload)?;
            if count > LIMIT {
                return None;
            }
            let buffer = &mut line.buffer[..count];
            buffer.fill(0);
            Some(call(session, flags, more, buffer))
        }
        _ => {
            let end = payload.len() + 2;
            Some(call(session, flags, more, &mut line.buffer[2..end]))
        }
    }
}
