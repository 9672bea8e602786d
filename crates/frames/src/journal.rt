// The journal by steps: any piece of the input goes in, and what it comes to is written into a lent buffer.
ghost use Rattle.std.specs.Prelude.{◌≡◌, ◌≤◌, length};
ghost use Rattle.frames.specs.Steps.{answer_limit, start, stepped, finished, part_of, place_of, read_of, reply_at, is_ended, Steps};
ghost use Rattle.frames.specs.Inside.{stage_behind, said_at, told_by, Writes};

use crate::answer::{self, ANSWER_LIMIT, BAD_LINE};
use crate::called::Called;
use crate::frame;
use crate::line::Line;
use strobe::{Answer, Session};

#[derive(Clone, Copy, PartialEq, Eq)]
enum Stage {
    // the first line is to come
    First,
    Later,
    // the first line was refused
    Ended,
}

impl Stage {
    // A first line that gives anything but 0 ends the run.
    fn behind(self, done: bool) -> Stage
        ensures { result ≡ stage_behind self done }
    {
        match self {
            Stage::First if done => Stage::Later,
            Stage::First => Stage::Ended,
            Stage::Later | Stage::Ended => self,
        }
    }

    // What comes of a line. `None` is out of shape; behind the end, where nothing is called, it makes the function total.
    fn called<'a>(self, session: &Session, line: &'a mut Line) -> Option<Called<'a>>
        ensures { told_by session.now result ≡ said_at self session.now (read_of (part_of line.old)) }
    {
        match self {
            Stage::First => frame::open(line),
            Stage::Later => frame::frame(session, line),
            Stage::Ended => None,
        }
    }
}

// Where a journal stands, within a line too.
#[derive(Clone, Copy)]
pub struct Journal {
    stage: Stage,
    session: Session,
    line: Line,
}

#[derive(Clone, Copy)]
pub struct Stepped {
    pub journal: Journal,
    // how much of the input was taken; `finish` counts the newline that it adds
    pub taken: usize,
    // how much was written
    pub put: usize,
}

impl Journal {
    // The longest answer. A step stops where less than this is left of its buffer, so a shorter buffer gets none.
    pub const ANSWER_LIMIT: usize = ANSWER_LIMIT;

    pub fn new() -> Journal
        ensures { place_of result ≡ start }
    {
        Journal {
            stage: Stage::First,
            session: Session::blank(),
            line: Line::empty(),
        }
    }

    // Writes the reply to a line that ends here at the start of `out`, and gives its length. What the line holds then is left to `clear`.
    fn reply(&mut self, out: &mut [u8]) -> usize
        requires { answer_limit ≤ length out.old }
        ensures stage { self.new.stage ≡ (reply_at (place_of self.old)).stage }
        ensures session { self.new.session ≡ (reply_at (place_of self.old)).session }
        ensures text { Writes (reply_at (place_of self.old)).text out.old result out.new }
    {
        if self.stage == Stage::Ended {
            return 0;
        }
        let Some(called) = self.stage.called(&self.session, &mut self.line) else {
            self.stage = self.stage.behind(false);
            return answer::write(BAD_LINE, &[], out);
        };
        self.stage = self.stage.behind(called.outcome.answer == Answer::Done);
        self.session = called.outcome.session;
        answer::write(called.outcome.answer.number(), called.shown, out)
    }

    // Takes as much of the input as there is room to answer, and writes the answers at the start of `out`.
    pub fn step(self, input: &[u8], out: &mut [u8]) -> Stepped
        ensures { Steps (stepped (place_of self) input.now (length out.old)) out.old result out.new }
    {
        let mut journal = self;
        let mut rest = input;
        let mut put = 0;
        while !rest.is_empty() && out.len() - put >= ANSWER_LIMIT {
            let Some(others) = journal.line.take(rest) else {
                return Stepped {
                    journal,
                    taken: input.len(),
                    put,
                };
            };
            rest = others;
            put += journal.reply(&mut out[put..]);
            journal.line.clear();
        }
        Stepped {
            journal,
            taken: input.len() - rest.len(),
            put,
        }
    }

    // At the end of the input: a last line without its newline is answered as if it had one.
    #[tactic(auto, unfolding(crate::specs::Steps::finished))]
    pub fn finish(self, out: &mut [u8]) -> Stepped
        ensures { Steps (finished (place_of self) (length out.old)) out.old result out.new }
    {
        if self.line.has_begun() {
            self.step(b"\n", out)
        } else {
            Stepped {
                journal: self,
                taken: 0,
                put: 0,
            }
        }
    }

    // Whether nothing that comes will be answered.
    pub fn ended(self) -> bool
        ensures { result ≡ is_ended self.stage }
    {
        self.stage == Stage::Ended
    }
}
