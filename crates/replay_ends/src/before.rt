// What an end does before an operation, if the plan says so: it is saved and loaded again, and it tries a call that is refused. That call's bytes are
// compared with what they were. Its session goes on: a change of the state or of a position is seen in the lines that follow, one of the direction or
// of the last operation not always.
use crate::meaning::LONGEST_MAC;
use crate::plan::{Part, SIZE};
use crate::reload::Edition;
use std::fmt;
use strobe::{Answer, Flags, Last, Session};

// A call that is refused.
#[derive(Clone, Copy)]
pub enum Attempt {
    KeyFlag,
    NoOperation,
    NotTheLast,
    CutMac,
    LongMac,
}

// What a call that is refused was answered, or that it changed its bytes.
#[derive(Clone, Copy)]
pub enum Note {
    Answered(Answer),
    Changed,
}

// The edition that an end was loaded in, and what it was answered when it then went on, and when it tried a call that is refused.
#[derive(Clone, Copy, Default)]
pub struct Before {
    pub edition: Option<Edition>,
    pub went_on: Option<Note>,
    pub refused: Option<Note>,
}

// Each call lends one byte more than a received MAC may have. The other refusals have nothing to do with the length. The operation goes on with the session.
fn tried(session: Session, bytes: [u8; SIZE], flags: Flags, more: bool) -> (Session, Note) {
    let mut lent = bytes;
    let out = session.call(flags, more, &mut lent[0..LONGEST_MAC + 1]);
    let note = if lent == bytes {
        Note::Answered(out.answer)
    } else {
        Note::Changed
    };
    (out.session, note)
}

// A session without a last operation can't go on with any, so any will do.
fn last_flags(session: Session) -> Flags {
    match session.last {
        Last::Op(flags) => flags,
        Last::Nothing => Flags::AD,
    }
}

// The last operation's other form, meta if that is plain.
fn not_the_last(session: Session) -> Flags {
    Flags(last_flags(session).0 ^ Flags::M.0)
}

// None of the twenty is without A and without C.
fn no_operation(flags: Flags) -> Flags {
    Flags(flags.0 & (Flags::I.0 | Flags::T.0 | Flags::M.0))
}

// A received MAC, meta if the operation that comes is.
fn received_mac(flags: Flags) -> Flags {
    Flags(Flags::RECV_MAC.0 | flags.0 & Flags::M.0)
}

impl Attempt {
    // The flags are those of the operation that comes.
    fn tried(self, session: Session, bytes: [u8; SIZE], flags: Flags) -> (Session, Note) {
        match self {
            Attempt::KeyFlag => tried(session, bytes, Flags(flags.0 | Flags::K.0), false),
            Attempt::NoOperation => tried(session, bytes, no_operation(flags), false),
            Attempt::NotTheLast => tried(session, bytes, not_the_last(session), true),
            Attempt::CutMac => tried(session, bytes, received_mac(flags), true),
            Attempt::LongMac => tried(session, bytes, received_mac(flags), false),
        }
    }
}

impl Before {
    // A night in which the session may be saved and loaded.
    fn overnight(
        session: Session,
        bytes: [u8; SIZE],
        reload: Option<Edition>,
    ) -> (Session, Before) {
        let mut before = Before::default();
        let Some(edition) = reload else {
            return (session, before);
        };
        let loaded = edition.reload(session);
        before.edition = loaded.edition;
        match edition {
            // More of the operation that was last before the save is tried. No last operation is set, so the answer is NotTheLast; after a received MAC it is
            // CutMac, as for every session.
            Edition::One => {
                let (session, note) = tried(loaded.session, bytes, last_flags(session), true);
                before.went_on = Some(note);
                (session, before)
            }
            // The session could go on, so nothing is tried.
            Edition::Two => (loaded.session, before),
        }
    }

    // The operation goes on with the session.
    pub fn play(session: Session, bytes: [u8; SIZE], part: Part) -> (Session, Before) {
        let (session, mut before) = Before::overnight(session, bytes, part.reload);
        let Some(attempt) = part.attempt else {
            return (session, before);
        };
        let (session, note) = attempt.tried(session, bytes, part.flags);
        before.refused = Some(note);
        (session, before)
    }
}

impl fmt::Display for Note {
    fn fmt<W: fmt::Write>(&self, f: &mut fmt::Formatter<W>) -> fmt::Result {
        match self {
            Note::Answered(answer) => write!(f, "{}", answer.number()),
            Note::Changed => write!(f, "changed"),
        }
    }
}
