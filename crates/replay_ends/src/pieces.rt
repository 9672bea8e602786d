// An end's part of an operation in its own cuts, with a save and a load between two of them if the plan says so.
use crate::plan::Part;
use crate::reload::Edition;
use strobe::{Outcome, Session};

// What the operation gave, and the edition that the end was loaded in in its middle.
#[derive(Clone, Copy)]
pub struct Worked {
    pub outcome: Outcome,
    pub edition: Option<Edition>,
}

impl Part {
    // Edition 2, so that the rest can go on. The first part's answer is not looked at: were it refused, the position on the line would tell.
    pub fn operate(self, session: Session, buf: &mut [u8]) -> Worked {
        let Some(n) = self.middle else {
            return Worked {
                outcome: session.call_in_pieces(self.flags, self.more, self.size, buf),
                edition: None,
            };
        };
        let (head, rest) = buf.split_at_mut(n.min(buf.len()));
        let begun = session.call_in_pieces(self.flags, self.more, self.size, head);
        let loaded = Edition::Two.reload(begun.session);
        Worked {
            outcome: loaded
                .session
                .call_in_pieces(self.flags, true, self.size, rest),
            edition: loaded.edition,
        }
    }
}
