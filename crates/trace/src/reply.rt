// The reply to a line: its call is made twice, by number and by name, and each way has its line of output.
ghost use Rattle.std.specs.Prelude.{◌≤◌, ◌+◌};
ghost use Rattle.trace.specs.Bounds.{out_size, reply_limit};

use crate::calls::{Name, Number};
use crate::frame::{Frame, LENT_LIMIT};
use crate::output::Out;
use crate::record;
use strobe::Session;

// The case goes on with the call by number. The other one's line is written only where it differs.
fn called(session: Session, frame: Frame<'_>, out: &mut Out<'_, impl Print>) -> Session
    requires { out.old.count + reply_limit ≤ out_size }
    ensures { (out.old.count ≤ out.new.count) × (out.new.count ≤ out.old.count + reply_limit) }
{
    let Frame { asked, lent } = frame;
    let mut copy = [0u8; LENT_LIMIT];
    let other = &mut copy[..lent.len()];
    other.copy_from_slice(lent);
    let by_number = asked.call::<Number>(session, lent);
    let by_name = asked.call::<Name>(session, other);
    record::write(out, Some(by_number.answer), &by_number.session, lent);
    if by_number != by_name || *lent != *other {
        record::write(out, Some(by_name.answer), &by_name.session, other);
    }
    by_number.session
}

// Gives where the case stands behind the line: none where an empty one ends it.
pub fn reply(
    case: Option<Session>,
    text: &[u8],
    buffer: &mut [u8; LENT_LIMIT],
    out: &mut Out<'_, impl Print>,
) -> Option<Session> {
    out.make_room();
    if text.is_empty() {
        out.push(b"\n");
        return None;
    }
    let frame = match case {
        None => Frame::first(text, buffer),
        Some(_) => Frame::later(text, buffer),
    };
    let session = case.unwrap_or(Session::blank());
    match frame {
        Some(frame) => Some(called(session, frame, out)),
        None => {
            record::write(out, None, &session, &[]);
            Some(session)
        }
    }
}
