// Two ends of one channel: each does its part of an operation, and what the sender gives back is lent to the receiver.
use crate::before::Before;
use crate::plan::{Part, SIZE, Step};
use crate::reload::Edition;
use strobe::{Answer, Flags, Level, Operation, Session};

// An end after an operation: its session and bytes, the operation's answer, the edition that it was loaded in between two pieces, and what came before.
#[derive(Clone, Copy)]
pub struct End {
    pub session: Session,
    pub bytes: [u8; SIZE],
    pub answer: Answer,
    pub edition: Option<Edition>,
    pub before: Before,
}

#[derive(Clone, Copy)]
pub struct Ends {
    pub first: End,
    pub second: End,
}

impl End {
    fn new(level: Level) -> End {
        let fresh = Session::new(b"replay.example", level);
        End {
            session: fresh.session,
            bytes: [0u8; SIZE],
            answer: fresh.answer,
            edition: None,
            before: Before::default(),
        }
    }

    // The end's part of an operation, on the first of the lent bytes, with what the plan puts before it.
    fn play(self, part: Part, lent: [u8; SIZE]) -> End {
        let (session, before) = Before::play(self.session, lent, part);
        let mut bytes = lent;
        let worked = part.operate(session, &mut bytes[..part.length]);
        End {
            session: worked.outcome.session,
            bytes,
            answer: worked.outcome.answer,
            edition: worked.edition,
            before,
        }
    }
}

// What an operation without T lends to the second end. What stands in the buffer of a ratchet or a prf does not count, so there the ends differ.
fn lent_to_second(flags: Flags, data: [u8; SIZE]) -> [u8; SIZE] {
    match flags.operation() {
        Operation::Ratchet | Operation::Prf => [0u8; SIZE],
        _ => data,
    }
}

impl Ends {
    pub fn new(level: Level) -> Ends {
        Ends {
            first: End::new(level),
            second: End::new(level),
        }
    }

    // The sender acts first.
    pub fn play(self, step: &Step) -> Ends {
        let flags = step.first.flags;
        if !flags.has(Flags::T) {
            return Ends {
                first: self.first.play(step.first, step.data),
                second: self
                    .second
                    .play(step.second, lent_to_second(flags, step.data)),
            };
        }
        if flags.has(Flags::I) {
            let second = self.second.play(step.second, step.data);
            let first = self.first.play(step.first, second.bytes);
            return Ends { first, second };
        }
        let first = self.first.play(step.first, step.data);
        let second = self.second.play(step.second, first.bytes);
        Ends { first, second }
    }
}
