// The published transcript of Merlin, which is STROBE-128.
use hex_digits::Hex;
use std::io;
use strobe::{Level, Session};

// What a message and a challenge begin with. A length goes in as four bytes, the least first.
fn announced(s: Session, label: &[u8], n: usize) -> Session {
    let length = n.to_le_bytes();
    s.meta_ad(label, false)
        .session
        .meta_ad(&length[..4], true)
        .session
}

fn append(s: Session, label: &[u8], message: &[u8]) -> Session {
    announced(s, label, message.len())
        .ad(message, false)
        .session
}

pub fn write(rt: &impl Print) -> io::Result<()> {
    let s = Session::new(b"Merlin v1.0", Level::B128).session;
    let s = append(s, b"dom-sep", b"test protocol");
    let s = append(s, b"some label", b"some data");
    let mut challenge = [0u8; 32];
    announced(s, b"challenge", 32).prf(&mut challenge, false);
    println!(rt; "{}", Hex(&challenge))
}
