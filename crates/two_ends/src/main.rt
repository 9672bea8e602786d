// Two offices share a key. One sends an encrypted result with a MAC and saves its session overnight, and both draw the same dice. The example of
// docs/USING.md.
#![tactic(auto)]

use std::io;
use strobe::{Answer, Level, Session};

fn office(key: &[u8]) -> Session {
    let fresh = Session::new(b"results.example", Level::B128);
    let keyed = fresh.session.key(key, false);
    keyed.session
}

// Encrypts the text in place and puts its MAC beside it.
fn send(session: Session, text: &mut [u8], mac: &mut [u8]) -> Session {
    let sent = session.send_enc(text, false);
    let signed = sent.session.send_mac(mac, false);
    signed.session
}

// Decrypts the text in place, and shows it only if its MAC is the sender's.
fn receive(rt: &impl Print, session: Session, text: &mut [u8], mac: &[u8]) -> io::Result<Session> {
    let received = session.recv_enc(text, false);
    let checked = received.session.recv_mac(mac);
    let Answer::Done = checked.answer else {
        println!(rt; "a wrong MAC")?;
        return Ok(checked.session);
    };
    rt.write_all(text)?;
    println!(rt;)?;
    Ok(checked.session)
}

// What an office does with its session at the end of a day, and at the start of the next.
fn overnight(rt: &impl Print, session: Session) -> io::Result<Session> {
    let mut form = [0u8; saved::SIZE];
    saved::save(session, &mut form);
    let morning = saved::load(&form);
    let Answer::Done = morning.answer else {
        println!(rt; "there was no session to save")?;
        return Ok(morning.session);
    };
    Ok(morning.session)
}

// A six-sided die, near enough for an example.
fn die(session: Session) -> u8 {
    let mut bytes = [0u8; 1];
    session.prf(&mut bytes, false);
    bytes[0] % 6
}

fn main(rt: HostRuntime) -> io::Result<()> {
    let mut text = *b"north 3, south 5";
    let mut mac = [0u8; 16];
    let here = send(office(b"a shared secret"), &mut text, &mut mac);
    let there = receive(&rt, office(b"a shared secret"), &mut text, &mac)?;
    if die(overnight(&rt, here)?) == die(there) {
        println!(rt; "the dice agree")
    } else {
        println!(rt; "the dice differ")
    }
}
