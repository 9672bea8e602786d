// Opening an operation: what a call works on.
ghost use Rattle.std.specs.Prelude.{◌≡◌, ◌≤◌, ◌<◌};
ghost use Rattle.strobe.specs.Session.{rate_of};

use crate::answer::Answer;
use crate::direction::Direction;
use crate::duplex::State;
use crate::flags::Flags;
use crate::last::Last;
use crate::level::Level;
use crate::rule::Absorbing;
use crate::session::{Outcome, Session};

// A session that passed its tests, taken apart: its state is at its level's rate.
#[derive(Drop)]
pub struct Open {
    pub state: State,
    pub level: Level,
    pub direction: Direction,
    pub last: Last,
    ghost rated: { state.rate ≡ rate_of level },
}

impl State {
    ghost use Rattle.strobe.specs.Loops.{duplex_of, Becomes};
    ghost use Rattle.strobe.specs.Session.{sponge};
    ghost use Rattle.strobe.specs.Strobe.{forced, begin_op};

    // Closes the block where C is set and the block is begun.
    #[tactic(auto, unfolding(crate::specs::Strobe::forced))]
    fn force(&mut self, flags: Flags)
        ensures { Becomes self.old (forced (sponge self.old.rate) flags (duplex_of self.old)) self.new }
    {
        if flags.has(Flags::C) && self.pos != 0 {
            self.run_f(self.pos);
        }
    }

    // Mixes the old begin position and the flags in, at a direction that is settled.
    #[tactic(auto, unfolding(crate::specs::Strobe::begin_op, crate::specs::Duplex::after))]
    fn begin_op(&mut self, direction: Direction, flags: Flags)
        ensures { Becomes self.old (begin_op (sponge self.old.rate) direction flags (duplex_of self.old)) self.new }
    {
        let begun = self.begin as u8;
        self.begin = self.pos + 1;
        self.meet::<Absorbing>(begun);
        self.meet::<Absorbing>(direction.mixed(flags));
        self.force(flags);
    }
}

impl Open {
    ghost use Rattle.strobe.specs.Loops.{strobe_of};
    ghost use Rattle.strobe.specs.Session.{sponge_of, seen, held};
    ghost use Rattle.strobe.specs.Strobe.{opened};

    pub fn new(session: Session) -> Open
        requires { session.pos < rate_of session.level × (session.begin ≤ session.pos) }
        ensures strobe { strobe_of result ≡ seen session }
        ensures level { result.level ≡ session.level }
    {
        let bytes = session.state;
        let level = session.level;
        let state = State {
            bytes,
            pos: session.pos,
            begin: session.begin,
            rate: level.rate(),
        };
        Open {
            state,
            level,
            direction: session.direction,
            last: session.last,
        }
    }

    // Begins the operation, unless more of it comes.
    #[tactic(auto, unfolding(crate::specs::Strobe::opened))]
    pub fn begin(&mut self, flags: Flags, more: bool)
        ensures strobe { strobe_of self.new ≡ opened (sponge_of self.old.level) (strobe_of self.old) flags more }
        ensures level { self.new.level ≡ self.old.level }
    {
        if more {
            return;
        }
        let direction = self.direction.directed(flags);
        self.state.begin_op(direction, flags);
        self.direction = direction;
        self.last = Last::Op(flags);
    }

    // The session again, when the work is done.
    pub fn outcome(self, answer: Answer) -> Outcome
        ensures { result ≡ record { session = held self.level (strobe_of self); answer = answer } }
    {
        let state = self.state.bytes;
        let session = Session {
            state,
            level: self.level,
            pos: self.state.pos,
            begin: self.state.begin,
            direction: self.direction,
            last: self.last,
        };
        Outcome { session, answer }
    }
}
