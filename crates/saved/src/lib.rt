// A session as 206 bytes, and back: the saved form (docs/FORMATS.md). A load takes the 205 bytes of edition 1 too. A form holds the secret state.
#![tactic(auto)]

ghost use Rattle.std.specs.Prelude.{◌≡◌, ◌≤◌, true, length};
ghost use Rattle.std.specs.Bool.{then_some};
ghost use Rattle.strobe.specs.Session.{rate_of, seen, Is};
ghost use Rattle.strobe.specs.Strobe.{well_formed};
ghost use Rattle.saved.specs.Saved.{edition1, newest, size_of, level_byte, direction_byte, last_byte, form, is_level, is_direction};
ghost use Rattle.saved.specs.Saved.{level_of, direction_of, last_of, loaded_with, loaded, answered, Saves};

use strobe::{Answer, Direction, Flags, Last, Level, Outcome, Session};

// The first byte of an edition, and how many there are.
const EDITION_1: u8 = 1;

const SIZE_1: usize = 205;

const EDITION_2: u8 = 2;

const SIZE_2: usize = 206;

// How many bytes a save writes.
pub const SIZE: usize = SIZE_2;

// Where the state stands, and the last operation in edition 2.
const STATE: usize = 5;

const STATE_END: usize = 205;

const LAST: usize = 205;

// No operation's flags.
const NO_LAST: u8 = 0xff;

fn level_byte(level: Level) -> u8
    ensures { result ≡ level_byte level }
{
    match level {
        Level::B128 => 1,
        Level::B256 => 2,
    }
}

fn level_of(byte: u8) -> Option<Level>
    ensures { result ≡ then_some (is_level byte) (level_of byte) }
{
    match byte {
        1 => Some(Level::B128),
        2 => Some(Level::B256),
        _ => None,
    }
}

fn direction_byte(direction: Direction) -> u8
    ensures { result ≡ direction_byte direction }
{
    match direction {
        Direction::Neither => 0,
        Direction::Sender => 1,
        Direction::Receiver => 2,
    }
}

fn direction_of(byte: u8) -> Option<Direction>
    ensures { result ≡ then_some (is_direction byte) (direction_of byte) }
{
    match byte {
        0 => Some(Direction::Neither),
        1 => Some(Direction::Sender),
        2 => Some(Direction::Receiver),
        _ => None,
    }
}

fn last_byte(last: Last) -> u8
    ensures { result ≡ last_byte last }
{
    match last {
        Last::Nothing => NO_LAST,
        Last::Op(flags) => flags.0,
    }
}

fn last_of(byte: u8) -> Last
    ensures { result ≡ last_of byte }
{
    match byte {
        NO_LAST => Last::Nothing,
        _ => Last::Op(Flags(byte)),
    }
}

// The session in what both editions hold and the byte of a last operation.
#[tactic(auto, unfolding(crate::specs::Saved::loaded_with, crate::specs::Saved::session_in, crate::specs::Saved::fits, strobe::specs::Strobe::well_formed))]
fn session_in(form: &[u8], last: u8) -> Option<Session>
    requires { size_of edition1 ≤ length form.now }
    ensures { answered result ≡ loaded_with form.now last }
{
    let session = Session {
        // 200 bytes of a slice are an array: this never gives None
        state: form[STATE..STATE_END].try_into().ok()?,
        level: level_of(form[1])?,
        pos: form[2] as usize,
        begin: form[3] as usize,
        direction: direction_of(form[4])?,
        last: last_of(last),
    };
    session.well_formed().then_some(session)
}

// The session in a saved form, of either edition; edition 1 sets no last operation.
#[tactic(auto, unfolding(crate::specs::Saved::loaded, crate::specs::Saved::is_numbered))]
fn session_of(bytes: &[u8]) -> Option<Session>
    ensures { answered result ≡ loaded bytes.now }
{
    match bytes {
        [EDITION_2, .., last] if bytes.len() == SIZE_2 => session_in(bytes, *last),
        [EDITION_1, ..] if bytes.len() == SIZE_1 => session_in(bytes, NO_LAST),
        _ => None,
    }
}

// A session from its saved form, of either edition; edition 1 sets no last operation. Other bytes get BadSaved and a blank.
pub fn load(bytes: &[u8]) -> Outcome
    ensures { Is (loaded bytes.now) result }
{
    let Some(session) = session_of(bytes) else {
        return Outcome {
            session: Session::blank(),
            answer: Answer::BadSaved,
        };
    };
    Outcome {
        session,
        answer: Answer::Done,
    }
}

// The form of a well-formed session, edition 2.
#[tactic(auto, unfolding(crate::specs::Saved::form, strobe::specs::Strobe::well_formed))]
fn form(session: Session) -> [u8; SIZE]
    requires { well_formed (rate_of session.level) (seen session) ≡ true }
    ensures { result ≡ form newest session }
{
    let mut form = [0u8; SIZE];
    form[0] = EDITION_2;
    form[1] = level_byte(session.level);
    form[2] = session.pos as u8;
    form[3] = session.begin as u8;
    form[4] = direction_byte(session.direction);
    form[LAST] = last_byte(session.last);
    form[STATE..STATE_END].copy_from_slice(&session.state);
    form
}

// Writes the saved form, edition 2, to the front of a buffer and leaves the rest of a longer one alone. A session that is not well formed gets
// NotASession, fewer than 206 bytes ShortBuffer.
#[tactic(auto, unfolding(crate::specs::Saved::saving))]
pub fn save(session: Session, buf: &mut [u8]) -> Answer
    ensures { Saves session buf.old result buf.new }
{
    if !session.well_formed() {
        return Answer::NotASession;
    }
    let Some(front) = buf.first_chunk_mut::<SIZE>() else {
        return Answer::ShortBuffer;
    };
    *front = form(session);
    Answer::Done
}
