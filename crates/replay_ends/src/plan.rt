// The plan: what both ends do in an operation, drawn from a session of its own.
ghost use Rattle.std.specs.Prelude.{◌<◌};
ghost use Rattle.replay_ends.specs.declared.plan.TheConstants.{SIZE};

use crate::before::Attempt;
use crate::flags;
use crate::meaning::{Draw, Seat};
use crate::reload::Edition;
use strobe::{Flags, Session};

// The bytes that are lent.
pub const SIZE: usize = 400;

// What one end does: on the first bytes of those lent, in pieces of a size, 0 for no cut; where it is saved and loaded again before it, and after how
// many bytes of it; and which call that is refused it tries before.
#[derive(Clone, Copy)]
pub struct Part {
    pub flags: Flags,
    pub more: bool,
    pub size: usize,
    pub length: usize,
    pub reload: Option<Edition>,
    pub middle: Option<usize>,
    pub attempt: Option<Attempt>,
    ghost within: { length < SIZE },
}

// What both do, the data, and the plan's session behind them.
#[derive(Clone, Copy)]
pub struct Step {
    pub first: Part,
    pub second: Part,
    pub data: [u8; SIZE],
    pub plan: Session,
}

impl Part {
    fn new(draw: Draw, seat: Seat, flags: Flags) -> Part {
        let length = draw.length(flags);
        Part {
            flags,
            more: draw.opening,
            size: draw.size(seat, flags),
            length,
            reload: draw.reload(seat),
            middle: draw.middle(seat, flags, length),
            attempt: draw.attempt(seat),
        }
    }
}

impl Step {
    // One prf says what is done, a second one gives the data.
    pub fn drawn(plan: Session, opening: bool) -> Step {
        let mut bytes = [0u8; 11];
        let told = plan.prf(&mut bytes, false);
        let mut data = [0u8; SIZE];
        let filled = told.session.prf(&mut data, false);
        let draw = Draw { bytes, opening };
        let flags = draw.flags();
        Step {
            first: Part::new(draw, Seat::First, flags),
            second: Part::new(draw, Seat::Second, flags::mirror(flags)),
            data,
            plan: filled.session,
        }
    }
}
