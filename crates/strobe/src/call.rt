// The work of a call, divided as strobe-rs divides it, and the call by number.
ghost use Rattle.std.specs.Prelude.{◌≡◌, true, cond, replicate};
ghost use Rattle.strobe.specs.Answer.{number, done, mac_unequal};
ghost use Rattle.strobe.specs.Duplex.{met, same};
ghost use Rattle.strobe.specs.Flags.{operation, overwriting, rule_of};
ghost use Rattle.strobe.specs.Loops.{among, takers, changers, macs, ratchets, duplex_of, Fed, Ran, KeepsRate, Operates};
ghost use Rattle.strobe.specs.Session.{sponge, Calls};

use crate::answer::Answer;
use crate::duplex::State;
use crate::flags::{Flags, Operation};
use crate::opening::Open;
use crate::rule::{Absorbing, Copying, Deciphering, Enciphering, Overwriting, Squeezing};
use crate::session::{Outcome, Session};

impl State {
    // The rule of an operation that only takes bytes in: key overwrites, ad and clr absorb.
    #[tactic(auto, using(crate::proofs::Twenty::takers_rule))]
    fn take_in(&mut self, flags: Flags, bytes: &[u8])
        requires { among takers flags ≡ true }
        ensures { Fed (rule_of (operation flags)) self.old bytes.now self.new }
    {
        if flags.has(Flags::C) {
            self.feed::<Overwriting>(bytes);
        } else {
            self.feed::<Absorbing>(bytes);
        }
    }

    // The rule of an operation that changes the lent bytes.
    #[tactic(auto, using(crate::proofs::Twenty::changers_rule))]
    fn change(&mut self, flags: Flags, buf: &mut [u8])
        requires { among changers flags ≡ true }
        ensures { Ran (rule_of (operation flags)) self.old buf.old self.new buf.new }
    {
        if !flags.has(Flags::T) {
            self.run::<Squeezing>(buf);
        } else if flags.has(Flags::I) {
            self.run::<Deciphering>(buf);
        } else if flags.has(Flags::A) {
            self.run::<Enciphering>(buf);
        } else {
            self.run::<Copying>(buf);
        }
    }

    // A received MAC is taken in whether or not it is the state's.
    fn judge(&mut self, mac: &[u8]) -> Answer
        ensures taken { Fed overwriting self.old mac.now self.new }
        ensures judged { number result ≡ cond (same (met (sponge self.old.rate) overwriting (duplex_of self.old) mac.now) mac.now) done mac_unequal }
    {
        if self.check_mac(mac) {
            Answer::Done
        } else {
            Answer::MacUnequal
        }
    }
}

impl Session {
    // What all calls share, around their work on the opened state. The work is lent: only then is it known what it leaves in a buffer that it writes.
    #[tactic(auto, using(crate::proofs::Calls::passed, crate::proofs::Calls::refused_work))]
    // Inlined, it would copy the outcome once more.
    #[inline(never)]
    fn operated<W: FnMut(&mut State) -> Answer>(
        self,
        flags: Flags,
        more: bool,
        n: usize,
        work: &mut W,
    ) -> Outcome
        requires callable { (state : _) → W.pre work.old state }
        requires rated { KeepsRate W.FnMut }
        ensures { Operates W.FnMut self flags more n work.old result work.new }
    {
        let answer = self.tested(flags, more, n);
        let Answer::Done = answer else {
            return Outcome {
                session: self,
                answer,
            };
        };
        let mut open = Open::new(self);
        open.begin(flags, more);
        let answer = work(&mut open.state);
        open.outcome(answer)
    }

    // An operation that changes the lent bytes.
    pub(crate) fn operate(self, flags: Flags, more: bool, buf: &mut [u8]) -> Outcome
        requires { among changers flags ≡ true }
        ensures { Calls self flags more buf.old result buf.new }
    {
        self.operated(
            flags,
            more,
            buf.len(),
            &mut |state| {
                state.change(flags, buf);
                Answer::Done
            },
        )
    }

    // An operation that only takes the lent bytes in.
    #[tactic(auto, using(crate::proofs::Calls::took))]
    pub(crate) fn operate_no_mutate(self, flags: Flags, more: bool, bytes: &[u8]) -> Outcome
        requires { among takers flags ≡ true }
        ensures { Calls self flags more bytes.now result bytes.now }
    {
        self.operated(
            flags,
            more,
            bytes.len(),
            &mut |state| {
                state.take_in(flags, bytes);
                Answer::Done
            },
        )
    }

    // A received MAC.
    #[tactic(auto, using(crate::proofs::Calls::judged))]
    pub(crate) fn generalized_recv_mac(self, flags: Flags, more: bool, mac: &[u8]) -> Outcome
        requires { among macs flags ≡ true }
        ensures { Calls self flags more mac.now result mac.now }
    {
        self.operated(flags, more, mac.len(), &mut |state| state.judge(mac))
    }

    // A ratchet: a count, no bytes.
    #[tactic(auto, using(crate::proofs::Calls::zeroed))]
    pub(crate) fn generalized_ratchet(self, flags: Flags, more: bool, n: usize) -> Outcome
        requires { among ratchets flags ≡ true }
        ensures { Calls self flags more (replicate n 0) result (replicate n 0) }
    {
        self.operated(
            flags,
            more,
            n,
            &mut |state| {
                state.zero(n);
                Answer::Done
            },
        )
    }

    // The call by number: the operation is the flag byte's. A ratchet's count is the buffer's length.
    pub fn call(self, flags: Flags, more: bool, buf: &mut [u8]) -> Outcome
        ensures { Calls self flags more buf.old result buf.new }
    {
        match flags.operation() {
            Operation::Ad | Operation::Key | Operation::SendClr | Operation::RecvClr => {
                self.operate_no_mutate(flags, more, buf)
            }
            Operation::Prf | Operation::SendMac | Operation::SendEnc | Operation::RecvEnc => {
                self.operate(flags, more, buf)
            }
            Operation::RecvMac => self.generalized_recv_mac(flags, more, buf),
            Operation::Ratchet => self.generalized_ratchet(flags, more, buf.len()),
            Operation::Unknown => Outcome {
                session: self,
                answer: self.tested(flags, more, buf.len()),
            },
        }
    }
}
