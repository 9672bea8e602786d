// A session: its parts, its creation and its version text.
ghost use Rattle.std.specs.Prelude.{◌≡◌, ◌≤◌};
ghost use Rattle.strobe.specs.Session.{sponge, sponge_of, held, blank, fresh_at, created, version_text, Is};
ghost use Rattle.strobe.specs.Strobe.{seed, unnamed};

use crate::answer::Answer;
use crate::direction::Direction;
use crate::flags::Flags;
use crate::last::Last;
use crate::level::Level;

#[derive(Clone, Copy, PartialEq, Eq)]
pub struct Session {
    pub state: [u8; 200],
    pub level: Level,
    pub pos: usize,
    pub begin: usize,
    pub direction: Direction,
    pub last: Last,
}

// What a creation, a load and every call give back.
#[derive(Clone, Copy, PartialEq, Eq)]
pub struct Outcome {
    pub session: Session,
    pub answer: Answer,
}

// The state before its first permutation.
#[tactic(auto, unfolding(crate::specs::Strobe::seed))]
fn seed(rate: usize) -> [u8; 200]
    requires { rate ≤ 166 }
    ensures { result ≡ seed (sponge rate) }
{
    let mut st = [0u8; 200];
    st[..6].copy_from_slice(&[0x01, (rate + 2) as u8, 0x01, 0x00, 0x01, 0x60]);
    st[6..18].copy_from_slice(b"STROBEv1.0.2");
    st
}

// A session before its protocol name is mixed in.
#[tactic(auto, unfolding(crate::specs::Strobe::unnamed), using(crate::proofs::Calls::rate_small))]
fn unnamed(level: Level) -> Session
    ensures { result ≡ held level (unnamed (sponge_of level)) }
{
    Session {
        state: keccak::permute(seed(level.rate())),
        level,
        pos: 0,
        begin: 0,
        direction: Direction::Neither,
        last: Last::Nothing,
    }
}

impl Session {
    // What a refused creation or load gives: every call on it gets NotASession.
    pub fn blank() -> Session
        ensures { result ≡ blank }
    {
        Session {
            state: [0u8; 200],
            level: Level::B128,
            pos: 166,
            begin: 166,
            direction: Direction::Neither,
            last: Last::Nothing,
        }
    }

    // A fresh session for a protocol; it is never refused.
    pub fn new(proto: &[u8], level: Level) -> Outcome
        ensures { Is (fresh_at level proto.now) result }
    {
        unnamed(level).operate_no_mutate(Flags::META_AD, false, proto)
    }

    // The same by level number, 128 or 256.
    #[tactic(auto, unfolding(crate::specs::Session::created))]
    pub fn create(proto: &[u8], level: usize) -> Outcome
        ensures { Is (created proto.now level) result }
    {
        match Level::try_from(level) {
            Ok(level) => Session::new(proto, level),
            Err(answer) => Outcome {
                session: Session::blank(),
                answer,
            },
        }
    }

    // The text depends on the level alone; every session gives it.
    pub fn version_str(self) -> [u8; 29]
        ensures { result ≡ version_text self.level }
    {
        match self.level {
            Level::B128 => *b"Strobe-Keccak-128/1600-v1.0.2",
            Level::B256 => *b"Strobe-Keccak-256/1600-v1.0.2",
        }
    }
}
