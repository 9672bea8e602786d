// A call in pieces, for a buffer that is to go through a session bit by bit.
ghost use Rattle.std.specs.Prelude.{◌≡◌};
ghost use Rattle.strobe.specs.Pieces.{piece_size, call_in_pieces};
ghost use Rattle.strobe.specs.Session.{sponge_of, seen, Comes};

use crate::flags::Flags;
use crate::session::{Outcome, Session};

// A size of 0 is no cut.
fn piece_size(size: usize, whole: usize) -> usize
    ensures { result ≡ piece_size size whole }
{
    if size == 0 { whole } else { size }
}

impl Session {
    // The call by number in pieces of `size` bytes, the last one shorter. It ends at the first refusal.
    pub fn call_in_pieces(self, flags: Flags, more: bool, size: usize, buf: &mut [u8]) -> Outcome
        ensures { Comes self.level (call_in_pieces (sponge_of self.level) (seen self) flags more size buf.old) result buf.new }
    {
        let step = piece_size(size, buf.len());
        let mut session = self;
        let mut on = more;
        let mut a: usize = 0;
        while step < buf.len() - a {
            let piece = session.call(flags, on, &mut buf[a..a + step]);
            if piece.answer.refuses() {
                return piece;
            }
            session = piece.session;
            on = true;
            a += step;
        }
        session.call(flags, on, &mut buf[a..])
    }
}
