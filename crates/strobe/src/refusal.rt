// The tests of a call, in their order: 8, 1, 2, 4, 3, 5.
ghost use Rattle.std.specs.Prelude.{◌≡◌};
ghost use Rattle.strobe.specs.Answer.{number};
ghost use Rattle.strobe.specs.Session.{rate_of, seen};
ghost use Rattle.strobe.specs.Strobe.{well_formed, refusal};

use crate::answer::Answer;
use crate::flags::Flags;
use crate::session::Session;

impl Session {
    // The positions are in order, and the last operation is none or one of the twenty.
    #[tactic(auto, unfolding(crate::specs::Strobe::well_formed))]
    pub fn well_formed(self) -> bool
        ensures { result ≡ well_formed (rate_of self.level) (seen self) }
    {
        self.pos < self.level.rate() && self.begin <= self.pos && self.last.known()
    }

    // Done, or the refusal of a call with n bytes.
    #[tactic(auto, unfolding(crate::specs::Strobe::refusal))]
    pub(crate) fn tested(self, flags: Flags, more: bool, n: usize) -> Answer
        ensures { number result ≡ refusal (rate_of self.level) (seen self) flags more n }
    {
        let operation = flags.operation();
        if !self.well_formed() {
            return Answer::NotASession;
        }
        if flags.has(Flags::K) {
            return Answer::KeyFlag;
        }
        if !operation.known() {
            return Answer::NoOperation;
        }
        if more {
            if operation.is_recv_mac() {
                return Answer::CutMac;
            }
            if !self.last.is(flags) {
                return Answer::NotTheLast;
            }
        }
        if operation.over_limit(n) {
            return Answer::TooLong;
        }
        Answer::Done
    }
}
