// The calls of one session by name: all twenty operations whole, then some in pieces.
use crate::steps::step;
use crate::{data, line};
use std::io;
use strobe::{Flags, Level, Session};

// The first call continues the name. With 166 and 134 bytes a block ends with the data of an operation
// that has C, at level 128 and at level 256. With one or two bytes less the next opening ends it.
fn all_twenty(rt: &impl Print, s: Session) -> io::Result<Session> {
    let s = step(rt, Flags::META_AD, 4, |buf| s.meta_ad(buf, true))?;
    let s = step(rt, Flags::AD, 20, |buf| s.ad(buf, false))?;
    let s = step(rt, Flags::META_AD, 200, |buf| s.meta_ad(buf, false))?;
    let s = step(rt, Flags::KEY, 32, |buf| s.key(buf, false))?;
    let s = step(rt, Flags::SEND_CLR, 10, |buf| s.send_clr(buf, false))?;
    let s = step(rt, Flags::PRF, 166, |buf| s.prf(buf, false))?;
    let s = step(rt, Flags::META_KEY, 134, |buf| s.meta_key(buf, false))?;
    let s = step(rt, Flags::RECV_CLR, 0, |buf| s.recv_clr(buf, false))?;
    let s = step(rt, Flags::SEND_ENC, 165, |buf| s.send_enc(buf, false))?;
    let s = step(
        rt,
        Flags::META_SEND_CLR,
        3,
        |buf| s.meta_send_clr(buf, false),
    )?;
    let s = step(
        rt,
        Flags::META_SEND_ENC,
        133,
        |buf| s.meta_send_enc(buf, false),
    )?;
    let s = step(
        rt,
        Flags::META_RECV_CLR,
        5,
        |buf| s.meta_recv_clr(buf, false),
    )?;
    let s = step(rt, Flags::RECV_ENC, 164, |buf| s.recv_enc(buf, false))?;
    let s = step(rt, Flags::SEND_MAC, 16, |buf| s.send_mac(buf, false))?;
    let s = step(rt, Flags::META_PRF, 132, |buf| s.meta_prf(buf, false))?;
    let s = step(
        rt,
        Flags::META_SEND_MAC,
        9,
        |buf| s.meta_send_mac(buf, false),
    )?;
    let s = step(
        rt,
        Flags::META_RECV_ENC,
        255,
        |buf| s.meta_recv_enc(buf, false),
    )?;
    let s = line::write(rt, s.ratchet(32, false), b"")?;
    let s = line::write(rt, s.meta_ratchet(167, false), b"")?;
    let s = step(rt, Flags::RECV_MAC, 16, |buf| s.recv_mac(buf))?;
    step(rt, Flags::META_RECV_MAC, 0, |buf| s.meta_recv_mac(buf))
}

fn in_pieces(rt: &impl Print, s: Session) -> io::Result<Session> {
    let s = step(rt, Flags::AD, 0, |buf| s.ad(buf, false))?;
    let s = step(rt, Flags::AD, 7, |buf| s.ad(buf, true))?;
    let s = step(rt, Flags::AD, 0, |buf| s.ad(buf, true))?;
    let s = step(rt, Flags::AD, 190, |buf| s.ad(buf, true))?;
    let s = step(rt, Flags::PRF, 133, |buf| s.prf(buf, false))?;
    let s = step(rt, Flags::PRF, 1, |buf| s.prf(buf, true))?;
    let s = step(rt, Flags::PRF, 31, |buf| s.prf(buf, true))?;
    let s = line::write(rt, s.ratchet(5, false), b"")?;
    let s = line::write(rt, s.ratchet(0, true), b"")?;
    let s = line::write(rt, s.ratchet(128, true), b"")?;
    let s = step(
        rt,
        Flags::META_SEND_ENC,
        1,
        |buf| s.meta_send_enc(buf, false),
    )?;
    let s = step(
        rt,
        Flags::META_SEND_ENC,
        164,
        |buf| s.meta_send_enc(buf, true),
    )?;
    let s = step(rt, Flags::KEY, 0, |buf| s.key(buf, false))?;
    let s = step(rt, Flags::KEY, 133, |buf| s.key(buf, true))?;
    step(rt, Flags::RECV_ENC, 3, |buf| s.recv_enc(buf, false))
}

pub fn write(rt: &impl Print, level: Level) -> io::Result<()> {
    let s = line::write(rt, Session::new(&data::NAME, level), &data::NAME)?;
    let s = all_twenty(rt, s)?;
    in_pieces(rt, s)?;
    Ok(())
}
