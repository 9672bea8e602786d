// Two ends of a channel: what one sends the other receives, up to a MAC that is changed on its way.
use crate::steps::step;
use crate::{data, line};
use std::io;
use strobe::{Flags, Session};

#[derive(Clone, Copy)]
struct Ends {
    here: Session,
    there: Session,
}

// The bytes go in at one end and come out at the other. Once `here` has got a MAC, it is `there` that sends to it.
fn agreeing(
    rt: &impl Print,
    fresh: Session,
    text: &mut [u8; 150],
    mac: &mut [u8; 64],
) -> io::Result<Ends> {
    let there = line::write(rt, fresh.key(text, false), text)?;
    let here = line::write(rt, fresh.key(text, false), text)?;
    let there = line::write(rt, there.send_enc(text, false), text)?;
    let here = line::write(rt, here.recv_enc(text, false), text)?;
    let there = line::write(rt, there.meta_send_clr(text, false), text)?;
    let here = line::write(rt, here.meta_recv_clr(text, false), text)?;
    let there = line::write(rt, there.send_mac(mac, false), mac)?;
    let here = line::write(rt, here.recv_mac(mac), mac)?;
    let here = line::write(rt, here.meta_send_enc(text, false), text)?;
    let there = line::write(rt, there.meta_recv_enc(text, false), text)?;
    let here = line::write(rt, here.meta_send_mac(mac, false), mac)?;
    let there = line::write(rt, there.meta_recv_mac(mac), mac)?;
    Ok(Ends { here, there })
}

// The receiver goes on with the bytes that it got. An empty MAC is equal all the same.
fn changed_mac(rt: &impl Print, ends: Ends, mac: &mut [u8; 64]) -> io::Result<()> {
    let here = line::write(rt, ends.here.send_mac(mac, false), mac)?;
    mac[3] ^= 1;
    let there = line::write(rt, ends.there.recv_mac(mac), mac)?;
    step(rt, Flags::SEND_MAC, 0, |buf| here.send_mac(buf, false))?;
    step(rt, Flags::RECV_MAC, 0, |buf| there.recv_mac(buf))?;
    Ok(())
}

pub fn write(rt: &impl Print, level: usize) -> io::Result<()> {
    let fresh = line::write(rt, Session::create(&data::NAME, level), &data::NAME)?;
    let mut mac = [0u8; 64];
    let ends = agreeing(rt, fresh, &mut data::counting(0), &mut mac)?;
    changed_mac(rt, ends, &mut mac)
}
