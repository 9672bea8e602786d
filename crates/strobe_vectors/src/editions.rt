// A session's saved form in both editions, each with counting bytes after it.
use crate::data;
use strobe::Session;

#[derive(Clone, Copy, PartialEq, Eq)]
pub enum Edition {
    One,
    Two,
}

impl Edition {
    pub fn size(self) -> u8 {
        match self {
            Edition::One => 205,
            Edition::Two => 206,
        }
    }

    // What a save writes is edition 2. Edition 1 has another first byte, and ends before the last operation.
    pub fn form(self, session: Session) -> [u8; 256] {
        let mut buf = data::counting(0);
        saved::save(session, &mut buf);
        if self == Edition::One {
            buf[0] = 1;
        }
        buf
    }
}
