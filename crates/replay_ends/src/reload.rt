// A save and a load, in either edition of the saved form. The save's answer is not looked at: after a refused one the form is zeros, the load is
// refused too and gives a blank, and from there on each answer on the lines is NotASession.
use std::fmt;
use strobe::Session;

#[derive(Clone, Copy)]
pub enum Edition {
    One = 1,
    Two = 2,
}

// What a load gave, and in which edition; in none where it was refused.
#[derive(Clone, Copy)]
pub struct Loaded {
    pub session: Session,
    pub edition: Option<Edition>,
}

impl Edition {
    // Edition 1 has another number in front, and ends before the last operation.
    pub fn reload(self, session: Session) -> Loaded {
        let mut form = [0u8; saved::SIZE];
        saved::save(session, &mut form);
        let out = match self {
            Edition::One => {
                form[0] = 1;
                saved::load(&form[0..205])
            }
            Edition::Two => saved::load(&form),
        };
        Loaded {
            session: out.session,
            edition: (!out.answer.refuses()).then_some(self),
        }
    }
}

impl fmt::Display for Edition {
    fn fmt<W: fmt::Write>(&self, f: &mut fmt::Formatter<W>) -> fmt::Result {
        write!(f, "{}", *self as u8)
    }
}
