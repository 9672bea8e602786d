// A call's line of output: its answer, the session's parts, the lent bytes and the state.
ghost use Rattle.std.specs.Prelude.{◌≡◌, ◌≤◌, ◌+◌, ◌*◌, length};
ghost use Rattle.trace.specs.Bounds.{out_size, record_size};

use crate::output::Out;
use strobe::{Answer, Direction, Last, Session};

// The answer to a line that is out of shape.
const BAD_LINE: u8 = 7;

// A position that two digits can't say is no session's, and has to be seen.
fn position(pos: usize) -> [u8; 2] {
    match u8::try_from(pos) {
        Ok(pos) => hex_digits::of(pos),
        Err(_) => *b"??",
    }
}

// The parts between the version text and the lent bytes, with a space before and behind each.
fn parts(session: &Session) -> [u8; 12] {
    let direction = match session.direction {
        Direction::Neither => b'0',
        Direction::Sender => b'1',
        Direction::Receiver => b'2',
    };
    let last = match session.last {
        Last::Nothing => *b"--",
        Last::Op(flags) => hex_digits::of(flags.0),
    };
    let [p0, p1] = position(session.pos);
    let [b0, b1] = position(session.begin);
    let [l0, l1] = last;
    [
        b' ', p0, p1, b' ', b0, b1, b' ', direction, b' ', l0, l1, b' ',
    ]
}

// The whole line, newline and all. There is no answer where a line is out of shape.
pub fn write(out: &mut Out<'_, impl Print>, answer: Option<Answer>, session: &Session, lent: &[u8])
    requires { out.old.count + 2 * length lent.now + record_size ≤ out_size }
    ensures { out.new.count ≡ out.old.count + 2 * length lent.now + record_size }
{
    let number = answer.map_or(BAD_LINE, |answer| answer.number());
    out.push(&[b'0' + number / 10, b'0' + number % 10, b' ']);
    out.push(&session.version_str());
    out.push(&parts(session));
    out.push_hex(lent);
    out.push(b" ");
    out.push_hex(&session.state);
    out.push(b"\n");
}
